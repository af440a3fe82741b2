//! A gate that holds two pieces, or two callers, until both have begun.

use cts_work::Gate;
use std::sync::atomic::{AtomicU64, Ordering};

/// How often a gate looks before it lets a piece or a caller go.
const LIMIT: u32 = 100_000_000;

/// A bit for each number below 64.
pub(crate) fn bit(number: u32) -> u64 {
    1u64 << (number % 64)
}

/// A gate that lets the two of a pair of numbers go once both have begun, and keeps what it saw.
#[derive(Drop)]
pub struct Meeting {
    pair: u64,
    begun: AtomicU64,
    late: AtomicU64,
    early: AtomicU64,
    made: AtomicU64,
}

impl Meeting {
    /// The gate of two numbers.
    pub fn of(first: u32, second: u32) -> Meeting {
        Meeting {
            pair: bit(first) | bit(second),
            begun: AtomicU64::new(0),
            late: AtomicU64::new(0),
            early: AtomicU64::new(0),
            made: AtomicU64::new(0),
        }
    }

    /// Whether both of the pair have begun.
    fn have_met(&self) -> bool {
        self.begun.load(Ordering::SeqCst) & self.pair == self.pair
    }

    /// A bit for each number that began, how many of the pair did not meet the other, and how many subtrees were
    /// made before both had begun.
    pub fn counted(&self) -> (u64, u64, u64) {
        let begun = self.begun.load(Ordering::SeqCst);
        let late = self.late.load(Ordering::SeqCst);
        (begun, late, self.early.load(Ordering::SeqCst))
    }

    /// How many subtrees were made with each number below 4, in 16 bits each, the least number last.
    pub fn made(&self) -> u64 {
        self.made.load(Ordering::SeqCst)
    }
}

impl Gate for Meeting {
    fn piece(&self, number: u32) {
        self.begun.fetch_or(bit(number), Ordering::SeqCst);
        if bit(number) & self.pair == 0 {
            return;
        }
        for _ in 0..LIMIT {
            if self.have_met() {
                return;
            }
        }
        self.late.fetch_add(1, Ordering::SeqCst);
    }

    fn between(&self, number: u32) {
        if !self.have_met() {
            self.early.fetch_add(1, Ordering::SeqCst);
        }
        self.made
            .fetch_add(1u64 << (16 * (number % 4)), Ordering::SeqCst);
    }
}

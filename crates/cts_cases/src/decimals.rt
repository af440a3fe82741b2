//! Long decimal texts.

use crate::show;
use cts_num::{NoMemory, decimal};
use std::alloc::AllocError;
use std::io;

/// Numbers with their places, of one word, of two words, and the greatest.
const NUMBERS: [(u128, u32); 9] = [
    (5 * 119_000_000_000_000, 16),
    (11 * 119_000_000_000_000, 16),
    (50, 16),
    (1_415_060_000_000_000_000, 16),
    (18_446_744_073_709_551_615, 6),
    (18_446_744_073_709_551_616, 16),
    (18_889_465_931_478_580_854_784, 16),
    (99_999_999_999_999_999_999_999_999_999_999_999_999, 0),
    (99_999_999_999_999_999_999_999_999_999_999_999_999, 16),
];

/// Prints the texts of the numbers, and of the error for want of memory.
pub(crate) fn write<R: Print>(rt: &R) -> io::Result<()> {
    for (value, places) in NUMBERS {
        if value < 100_000_000_000_000_000_000_000_000_000_000_000_000 && places <= 16 {
            show::text(rt, decimal(value, places).bytes())?;
        }
    }
    println!(rt; "{}", NoMemory::from(AllocError))
}

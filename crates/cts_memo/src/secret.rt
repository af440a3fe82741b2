//! Secrets, with which the hash of a table's keys begins.

ghost use Rattle.std.specs.Prelude.{◌≡◌, [], ◌++◌};
ghost use Rattle.std.specs.List.{flat_map};
ghost use Rattle.std.specs.Hash.{HashWrites, u64};
ghost use Rattle.cts_memo.specs.Secrets.{IsSecretOf, Mixes, place_parts, sink_parts};

use cts_units::Sink;
use std::hash::{DefaultHasher, Hasher};

/// What the hash of a table's keys begins with, so that whoever picks the keys without knowing it can't
/// pick some that collide. No answer depends on it.
#[derive(Clone, Copy)]
pub struct Secret {
    pub(crate) low: u64,
    pub(crate) high: u64,
}

/// Parts of an input, mixed into a secret one after the other by SipHash. Whoever changes a part gets
/// another secret by it.
#[derive(Clone, Copy)]
pub struct Mixture {
    hasher: DefaultHasher,
}

impl Mixture {
    /// A mixture without parts.
    pub fn new() -> Mixture
        ensures { Mixes [] result }
    {
        Mixture {
            hasher: DefaultHasher::new(),
        }
    }

    /// Adds a number.
    pub fn add(&mut self, number: u64)
        ensures { (parts : HashWrites) → Mixes parts self.old → Mixes (parts ++ u64 number) self.new }
    {
        self.hasher.write_u64(number);
    }

    /// Adds a place, in nm.
    pub fn add_place(&mut self, x: i64, y: i64)
        ensures { (parts : HashWrites) → Mixes parts self.old → Mixes (parts ++ place_parts x y) self.new }
    {
        self.hasher.write_i64(x);
        self.hasher.write_i64(y);
    }

    /// Adds sinks, with their ids, places, capacitances and wanted offsets.
    pub fn add_sinks(&mut self, sinks: &[Sink])
        ensures { (parts : HashWrites) → Mixes parts self.old → Mixes (parts ++ flat_map sink_parts sinks.now) self.new }
    {
        for sink in sinks {
            self.add_sink(sink);
        }
    }

    /// Adds a sink.
    fn add_sink(&mut self, sink: &Sink)
        ensures { (parts : HashWrites) → Mixes parts self.old → Mixes (parts ++ sink_parts sink.now) self.new }
    {
        self.add(sink.id as u64);
        self.add_place(sink.x, sink.y);
        self.add(sink.cap);
        self.add(sink.offset);
    }

    /// The secret of all these parts. Its two halves are hashes of the parts with different ends.
    pub fn secret(self) -> Secret
        ensures { (parts : HashWrites) → Mixes parts self → IsSecretOf parts result }
    {
        let mut longer = self.hasher;
        longer.write_u64(1);
        Secret {
            low: self.hasher.finish(),
            high: longer.finish(),
        }
    }
}

impl Secret {
    /// One that everybody knows, for sinks that nobody picked to do harm.
    pub fn known() -> Secret
        ensures low { result.low ≡ 0 }
        ensures high { result.high ≡ 0 }
    {
        Secret { low: 0, high: 0 }
    }

    /// One in which all these sinks have a part.
    pub fn of_sinks(sinks: &[Sink]) -> Secret
        ensures { IsSecretOf (flat_map sink_parts sinks.now) result }
    {
        let mut mixture = Mixture::new();
        mixture.add_sinks(sinks);
        mixture.secret()
    }
}

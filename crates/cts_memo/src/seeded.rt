//! The hash of a table's keys.

ghost use Rattle.std.specs.Prelude.{◌≡◌};
ghost use Rattle.cts_memo.specs.Secrets.{seeded_by};

use crate::secret::Secret;
use std::hash::{BuildHasher, FoldHasher, Hasher};

/// Makes the hashers of keys, which have taken a secret in. They multiply and fold, once for each part of
/// a key.
#[derive(Clone, Copy)]
pub struct Seeded {
    start: FoldHasher,
}

impl Seeded {
    /// Makes hashers that begin with this secret.
    pub fn new(secret: Secret) -> Seeded
        ensures { result.start ≡ seeded_by secret }
    {
        let mut start = FoldHasher::default();
        start.write_u64(secret.low);
        start.write_u64(secret.high);
        Seeded { start }
    }
}

impl BuildHasher for Seeded {
    type Hasher = FoldHasher;

    ghost build_hasher = { λ s. s.start };

    fn build_hasher(&self) -> FoldHasher {
        self.start
    }
}

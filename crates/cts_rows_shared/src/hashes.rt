//! Hashes of the keys of leaves. The sinks were picked, by another program, so that under the secret that
//! everybody knows the keys of their leaves have one hash.

use crate::compare::same;
use cts_memo::{Key, Secret, Seeded};
use cts_units::Sink;
use std::hash::BuildHasher;
use std::test::Fail;

/// A sink in nm, zF and 10^-27 s, whose id has no part in its key.
fn sink_of(x: i64, y: i64, cap: u64, offset: u64) -> Sink {
    Sink {
        id: 0,
        x,
        y,
        cap,
        offset,
    }
}

/// The sinks that were picked.
fn picked() -> [Sink; 6] {
    [
        sink_of(79_054_544, 4_633_978, 503_555_000_000, 0),
        sink_of(
            68_957_265,
            46_147_529,
            998_735_000_000,
            154_108_181_877_141_319,
        ),
        sink_of(
            65_085_546,
            47_887_538,
            434_556_000_000,
            421_209_648_081_182_372,
        ),
        sink_of(
            28_063_717,
            81_288_784,
            452_624_000_000,
            297_275_914_369_816_468,
        ),
        sink_of(
            2_794_159,
            30_249_188,
            18_733_000_000,
            306_570_974_132_356_387,
        ),
        sink_of(
            29_608_396,
            84_660_762,
            836_566_000_000,
            343_787_128_819_166_101,
        ),
    ]
}

/// The hash of the key of a sink's leaf under a secret.
fn hash_of(secret: Secret, sink: &Sink) -> u64 {
    Seeded::new(secret).hash_one(Key::of_sink(sink))
}

#[test]
fn keys_that_collide_under_one_secret_spread_under_another(rt: HostRuntime) -> Result<(), Fail> {
    let sinks = picked();
    let secret = Secret::of_sinks(&sinks);
    let last = hash_of(secret, &sinks[5]);
    for sink in &sinks[..5] {
        let found = hash_of(Secret::known(), sink);
        same(&rt, "picked to collide", found, 5_124_827_417_515_944_028);
        same(&rt, "spread", hash_of(secret, sink) == last, false);
    }
    Ok(())
}

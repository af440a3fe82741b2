//! Buffers chosen from a small library.

use crate::instances::{Metal, with_metal};
use cts_units::{Buffer, choose_buffer};
use std::alloc::Global;
use std::process::Abort;
use std::test::Fail;

/// Compares the choice from these buffers at this load, above a threshold of 4 zF.
fn chooses(
    rt: &impl Abort,
    alloc: Global,
    buffers: &[Buffer],
    load: u32,
    want: Option<u16>,
) -> Result<(), Fail> {
    let metal = Metal {
        buffers,
        insert_at: 4,
        ..Metal::bare(1, 1)
    };
    let instance = with_metal(alloc, &metal)?;
    let found = choose_buffer(instance.params(), u64::from(load));
    assert_eq!(rt; (load, found), (load, want));
    Ok(())
}

#[test]
fn least_delay_then_first_in_the_library(rt: HostRuntime) -> Result<(), Fail> {
    // Per zF of load the doubled delays are 6 and 40 + 2: equal at 10 zF.
    let weak = Buffer {
        cin: 3,
        rout: 3,
        intrinsic: 0,
    };
    let strong = Buffer {
        cin: 3,
        rout: 1,
        intrinsic: 20,
    };
    let library = [weak, weak, strong];
    chooses(&rt, rt.alloc(), &library, 4, None)?;
    chooses(&rt, rt.alloc(), &library, 5, Some(0))?;
    chooses(&rt, rt.alloc(), &library, 9, Some(0))?;
    chooses(&rt, rt.alloc(), &library, 10, Some(0))?;
    chooses(&rt, rt.alloc(), &library, 11, Some(2))?;
    chooses(&rt, rt.alloc(), &[], 5, None)
}

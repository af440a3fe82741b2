//! The choice of a buffer from the library.

ghost use Rattle.std.specs.Prelude.{◌≡◌, ◌^◌, ◌<◌, ◌≤◌, [], length, vec_len, All, IfSome, MatchOption};
ghost use Rattle.cts_units.specs.Choice.{IsBufferChoice, IsLeastBuffer, added_delay_of, seen_load_of};
ghost use Rattle.cts_units.specs.Limits.{IsBuffer, IsParams, max_load};

use crate::delay::buffer_delay;
use crate::params::{Buffer, Params};

/// The index of the buffer that a pair of wires takes over a load of `load` zF: of those with the least
/// delay at that load, the first in the library.
///
/// `None` exactly where the load is at most the insertion threshold or the library is empty.
pub fn choose_buffer(params: &Params, load: u64) -> Option<u16>
    requires params { IsParams params.now }
    requires load { load ≤ max_load }
    ensures { IsBufferChoice params.now load result }
{
    if load <= params.insert_at {
        return None;
    }
    least_buffer(params.library.items(), load)
}

/// The first of the buffers that have the least delay at a load.
fn least_buffer(buffers: &[Buffer], load: u64) -> Option<u16>
    requires count { length buffers.now ≤ 16 }
    requires buffers { All IsBuffer buffers.now }
    requires load { load ≤ max_load }
    ensures { MatchOption result (buffers.now ≡ []) (IsLeastBuffer buffers.now load) }
{
    let first = buffers.first()?;
    let mut best = 0;
    let mut least = buffer_delay(*first, load);
    for (index, buffer) in buffers.iter().enumerate() {
        let delay = buffer_delay(*buffer, load);
        if delay < least {
            best = index;
            least = delay;
        }
    }
    Some(best as u16)
}

/// The doubled delay in 10^-27 s that the buffer at a node adds over a load of `load` zF, and the load in zF that is
/// seen from above the node: nothing and the load itself where the node has no buffer.
pub fn buffered(params: &Params, buffer: Option<u16>, load: u64) -> (u128, u64)
    requires params { IsParams params.now }
    requires load { load ≤ max_load }
    requires buffer { IfSome buffer (λ index. index < length params.now.library) }
    ensures added { result.0 ≡ added_delay_of params.now.library buffer load }
    ensures added_bound { result.0 ≤ 2 ^ 118 }
    ensures seen { result.1 ≡ seen_load_of params.now.library buffer load }
    ensures seen_bound { result.1 ≤ max_load }
{
    match buffer {
        Some(index) => {
            let chosen = params.library.items()[index as usize];
            (buffer_delay(chosen, load), chosen.cin)
        }
        None => (0, load),
    }
}

//! The lengths of a pair's wires over routes that are given.

ghost use Rattle.std.specs.Prelude.{IfOk, IfErr};
ghost use Rattle.cts_units.specs.Limits.{IsParams};
ghost use Rattle.cts_merge.specs.Balance.{IsBalanced, IsBeyondBalance};
ghost use Rattle.cts_merge.specs.Side.{IsSideInRange};

use crate::lengths::{delay_through, stretched};
use crate::side::{Beyond, Side};
use cts_units::{MAX_LENGTH, Params};

/// The lengths of the wires to two sides whose routes have the lengths `la` and `lb`: one wire has its
/// route's length, the other one at least that of its own route, and they are the least such pair by the
/// difference of the two delays, then by total length, then by the first wire's length.
///
/// `Beyond` exactly where one of the two lengths is above 2^31 - 1 nm. A route may be of any length.
pub fn choose(params: &Params, a: &Side, la: u64, b: &Side, lb: u64) -> Result<(u64, u64), Beyond>
    requires params { IsParams params.now }
    requires a { IsSideInRange a.now }
    requires b { IsSideInRange b.now }
    ensures balanced { IfOk result (λ pair. IsBalanced params.now.wire a.now la b.now lb pair.0 pair.1) }
    ensures beyond { IfErr result (λ _. IsBeyondBalance params.now.wire a.now la b.now lb) }
{
    if la > MAX_LENGTH || lb > MAX_LENGTH {
        return Err(Beyond);
    }
    let delay_a = delay_through(params.wire, a, la);
    let delay_b = delay_through(params.wire, b, lb);
    if delay_b <= delay_a {
        let xb = stretched(params.wire, b, lb, delay_a)?;
        return Ok((la, xb));
    }
    let xa = stretched(params.wire, a, la, delay_b)?;
    Ok((xa, lb))
}

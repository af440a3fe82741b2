//! The shape, and the synthesis over it.

ghost use Rattle.std.specs.Prelude.{◌≡◌, ◌<◌, All, IfErr, IfOk, length};
ghost use Rattle.std.specs.Result.{IsErrOf};
ghost use Rattle.cts_elmore.specs.Figures.{AreFigures, AreFiguresInRange};
ghost use Rattle.cts_elmore.specs.Sound.{IsSound, StandsInDie};
ghost use Rattle.cts_near.specs.Ends.{max_near_sinks};
ghost use Rattle.cts_plain.specs.Synthesis.{made};
ghost use Rattle.cts_near.specs.declared.tree_end.NoNearTree.TheVariants.{Many};
ghost use Rattle.cts_near.specs.TreeEnds.{NearEnds};
ghost use Rattle.cts_near.specs.Synthesis.{IsSynthesisNear};

use crate::pass::near;
use crate::tree_end::NoNearTree;
use cts_elmore::Figures;
use cts_instance::Instance;
use cts_merge::Steps;
use cts_plain::synthesise_over;
use cts_tree::Tree;
use std::alloc::Global;
use std::marker::Brand;
use std::sync::ledger::{Blank, Ledger};

/// The synthesis of an instance over the nearest-pair topology of its sinks: its tree with the figures, or why it has
/// none.
///
/// `Many` exactly where there are more than 2,048 sinks; `AtStep` with the number of the first step, from 1, whose pair
/// is over the limits of lengths, loads or delays. Over the shape: `Beyond` with the least number of a node that is over
/// those limits in the balance, `Cut` with the greatest number of a node that no route reaches, and `NoMemory` where an
/// allocation fails, which may be before there is a shape.
pub fn synthesise_near(alloc: Global, instance: &Instance) -> Result<(Tree, Figures), NoNearTree>
    ensures tree { IfOk result (λ r. IsSynthesisNear instance.now (made r.0)) }
    ensures figures { IfOk result (λ r. AreFigures instance.now r.0 r.1) }
    ensures sound { IfOk result (λ r. IsSound instance.now r.0) }
    ensures one_each { IfOk result (λ r. length r.1.nodes ≡ length r.0) }
    ensures in_range { IfOk result (λ r. AreFiguresInRange r.1) }
    ensures in_die { IfOk result (λ r. All (StandsInDie instance.now.die) r.0) }
    ensures ends { IfErr result (NearEnds instance.now) }
    ensures many { max_near_sinks < length instance.now.sinks → IsErrOf result Many }
{
    synthesise_counted::<Brand>(alloc, Blank::new(1), instance)
}

/// The same with a counter of merges, which nobody reads.
fn synthesise_counted<L: Ledger>(
    alloc: Global,
    blank: Blank,
    instance: &Instance,
) -> Result<(Tree, Figures), NoNearTree>
    requires name { blank.name ≡ L.name }
    requires parts { blank.parts ≡ L.parts }
    requires some { 0 < L.parts }
    ensures tree { IfOk result (λ r. IsSynthesisNear instance.now (made r.0)) }
    ensures figures { IfOk result (λ r. AreFigures instance.now r.0 r.1) }
    ensures sound { IfOk result (λ r. IsSound instance.now r.0) }
    ensures one_each { IfOk result (λ r. length r.1.nodes ≡ length r.0) }
    ensures in_range { IfOk result (λ r. AreFiguresInRange r.1) }
    ensures in_die { IfOk result (λ r. All (StandsInDie instance.now.die) r.0) }
    ensures ends { IfErr result (NearEnds instance.now) }
    ensures many { max_near_sinks < length instance.now.sinks → IsErrOf result Many }
{
    let shape = near(alloc, instance.params(), instance.sinks())?;
    let mut steps = Steps::<L>::open(blank);
    let made = synthesise_over(alloc, instance, &shape, &mut steps)?;
    Ok(made)
}

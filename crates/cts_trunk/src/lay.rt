//! Repeaters on the trunk of a tree, and what they make of the tree.

ghost use Rattle.std.specs.Prelude.{◌≡◌, [], ◌+◌, ◌*◌, ◌-◌, ◌/◌, ◌^◌, ◌<◌, ◌≤◌, ◌↔◌, length, slice_index_or, All, IfErr, IfOk, IfSome, IsErrOf, IsTrue};
ghost use Rattle.cts_geom.specs.Points.{IsSpotInRange, point_of};
ghost use Rattle.cts_units.specs.Delay.{slew_of};
ghost use Rattle.cts_units.specs.Limits.{IsBuffer, max_delay, max_length, max_load};
ghost use Rattle.cts_postorder.specs.BinaryTree.{label};
ghost use Rattle.cts_postorder.specs.PostOrder.{root_of};
ghost use Rattle.cts_tree.specs.Nodes.{tree_children};
ghost use Rattle.cts_elmore.specs.Figures.{AreFiguresInRange, IsFigureInRange};
ghost use Rattle.cts_elmore.specs.Fits.{FitsInstance};
ghost use Rattle.cts_elmore.specs.Measurement.{HasFigures};
ghost use Rattle.cts_elmore.specs.Sound.{IsLegalRoute, IsSound, upper_end};
ghost use Rattle.cts_trunk.specs.declared.sums.Reach.{Reach};
ghost use Rattle.cts_trunk.specs.declared.trunk.TrunkEnd.TheVariants.{Buffer as NoBuffer};
ghost use Rattle.cts_trunk.specs.Assembled.{AreRepeaters, EndsWith, IsAssembled, IsRootBefore, IsTrunkWith};
ghost use Rattle.cts_trunk.specs.Known.{IsRootKnown};
ghost use Rattle.cts_trunk.specs.Laid.{Ends, HasTautTrunk, IsLaid};
ghost use Rattle.cts_trunk.specs.Lines.{IsPrintableTrunk};
ghost use Rattle.cts_trunk.specs.Met.{LoadsAreMet, SlewsAreMet};
ghost use Rattle.cts_trunk.specs.Places.{trunk_way};
ghost use Rattle.cts_trunk.specs.Road.{AreStands, EndsWalk};
ghost use Rattle.cts_trunk.specs.TrunkSums.{IsDriveInRange, IsDriveOf};

use crate::met::{loads_in_tree_met, loads_on_trunk_met, slews_in_tree_met, slews_on_trunk_met};
use crate::places::{Stand, stands_along};
use crate::sums::{Drive, Reach, reaches_along};
use crate::trunk::{Repeater, Repeaters, Trunk, TrunkEnd};
use cts_block::FreeMap;
use cts_elmore::{Figures, NodeFigure};
use cts_geom::{Half, halves};
use cts_instance::Instance;
use cts_num::NoMemory;
use cts_tree::{Tree, TreeNode};
use cts_units::{Buffer, MAX_DELAY};
use std::alloc::Global;

/// The point of the source, in half nm.
fn source_point(instance: &Instance) -> Half
    ensures { result ≡ upper_end instance.now [] }
{
    Half {
        x: 2 * instance.source_x(),
        y: 2 * instance.source_y(),
    }
}

/// The points of the trunk in half nm, from the source to the root.
fn trunk_way_of(alloc: Global, instance: &Instance, root: &TreeNode) -> Result<Vec<Half>, NoMemory>
    requires { IsSpotInRange root.now.place }
    ensures { IfOk result (λ points. points.items ≡ trunk_way instance.now root.now) }
{
    let mut points = Vec::new(alloc);
    points.push(source_point(instance))?;
    points.extend_from_slice(root.route.corners.items())?;
    points.push(halves(root.place))?;
    Ok(points)
}

/// Where repeaters stand on the trunk, or `Many` or `NoMemory`.
fn root_stands(
    alloc: Global,
    instance: &Instance,
    root: &TreeNode,
    step: u64,
) -> Result<Vec<Stand>, TrunkEnd>
    requires step { 0 < step }
    requires small { step < 2 ^ 31 }
    requires legal { IsLegalRoute instance.now.blocks instance.now.die (upper_end instance.now []) (point_of root.now.place)
        root.now.route }
    requires taut { HasTautTrunk instance.now root.now }
    requires short { root.now.wire ≤ max_length }
    ensures stands { IfOk result (λ stands. AreStands instance.now.blocks instance.now.die (trunk_way instance.now root.now)
        step ((root.now.wire - 1) / step) stands.items) }
    ensures end { IfErr result (EndsWalk instance.now.blocks instance.now.die (trunk_way instance.now root.now)
        step ((root.now.wire - 1) / step)) }
{
    let die = instance.die();
    let map = FreeMap::of(alloc, instance.blocks(), &die)?;
    let points = trunk_way_of(alloc, instance, root)?;
    let count = root.wire.saturating_sub(1) / step;
    stands_along(alloc, &map, points.as_slice(), step, count)
}

/// What drives the trunk to this root, where the source's load is that of the whole trunk, and what it drives.
fn drive_of(instance: &Instance, root: &TreeNode, source_load: u64, repeater: Buffer) -> Drive
    requires short { root.now.wire ≤ max_length }
    requires light { source_load ≤ max_load }
    requires seen { instance.now.params.wire.c * root.now.wire ≤ source_load }
    requires repeater { IsBuffer repeater }
    ensures range { IsDriveInRange result }
    ensures drive { IsDriveOf instance.now result }
    ensures repeater { result.repeater ≡ repeater }
    ensures root_at { result.root_at ≡ root.now.wire }
    ensures root_seen { result.root_seen + instance.now.params.wire.c * root.now.wire ≡ source_load }
{
    let wire = instance.params().wire;
    Drive {
        wire,
        source_r: instance.source_r(),
        repeater,
        root_seen: source_load - wire.c * root.wire,
        root_at: root.wire,
    }
}

/// The repeaters at these places, each between two wires.
fn repeaters_at(
    alloc: Global,
    stands: &[Stand],
    reaches: &[Reach],
) -> Result<Vec<Repeater>, NoMemory>
    requires { length reaches.now ≡ length stands.now + 1 }
    ensures { IfOk result (λ repeaters. AreRepeaters stands.now reaches.now repeaters.items) }
{
    let mut repeaters = Vec::new(alloc);
    for number in 0..stands.len() {
        let above = reaches[number];
        repeaters.push(Repeater {
            place: stands[number].place,
            length: stands[number].length,
            load: reaches[number + 1].load,
            delay: above.delay,
            stage: above.stage,
        })?;
    }
    Ok(repeaters)
}

/// Whether the limits are met.
#[derive(Clone, Copy)]
struct Met {
    load: bool,
    slew: bool,
}

/// Whether the limit on loads is met with repeaters.
fn load_met(
    instance: &Instance,
    nodes: &[TreeNode],
    figures: &[NodeFigure],
    reaches: &[Reach],
) -> bool
    requires { length figures.now ≡ length nodes.now }
    ensures { IsTrue result ↔ (All (λ reach. reach.load ≤ instance.now.load_limit) reaches.now
        × LoadsAreMet instance.now.load_limit nodes.now figures.now) }
{
    let limit = instance.load_limit();
    loads_on_trunk_met(limit, reaches) && loads_in_tree_met(limit, nodes, figures)
}

/// Whether the limit on slews is met with repeaters at the lower ends of these wires of the trunk, where the root's stage
/// goes from `old` to `new`.
fn slew_met(
    instance: &Instance,
    nodes: &[TreeNode],
    figures: &[NodeFigure],
    reaches: &[Reach],
    old: u128,
    new: u128,
) -> bool
    requires long { length figures.now ≡ length nodes.now }
    requires range { All IsFigureInRange figures.now }
    requires new { new ≤ max_delay }
    requires reaches { All (λ reach. reach.stage ≤ 2 ^ 120) reaches.now }
    ensures { IsTrue result ↔ (All (λ reach. slew_of reach.stage ≤ 10 * instance.now.slew_limit) reaches.now
        × SlewsAreMet instance.now.slew_limit old new nodes.now figures.now) }
{
    let limit = instance.slew_limit();
    slews_on_trunk_met(limit, reaches) && slews_in_tree_met(limit, old, new, nodes, figures)
}

/// The trunk with these repeaters, where the delay of the root was `old`.
fn assembled(
    repeaters: Vec<Repeater>,
    first: Reach,
    last: Reach,
    old: u128,
    figures: &Figures,
    met: Met,
) -> Trunk
    requires old_greatest { old ≤ figures.now.greatest }
    requires old_least { old ≤ figures.now.least }
    requires last { last.delay ≤ max_delay }
    requires greatest { figures.now.greatest ≤ max_delay }
    requires least { figures.now.least ≤ max_delay }
    ensures repeaters { result.repeaters ≡ repeaters.items }
    ensures values { IsAssembled first last old figures.now result }
    ensures load_met { result.load_met ≡ met.load }
    ensures slew_met { result.slew_met ≡ met.slew }
{
    Trunk {
        repeaters: Repeaters::of(repeaters),
        source_load: first.load,
        root_delay: last.delay,
        root_stage: last.stage,
        greatest: last.delay + (figures.greatest - old),
        least: last.delay + (figures.least - old),
        skew: figures.skew,
        load_met: met.load,
        slew_met: met.slew,
    }
}

/// The trunk with repeaters at these places, whose wires come to this, where the delay of the root, which is its stage too,
/// was `old`. Answers `Beyond` exactly where the greatest arrival of a leaf is over the limit, and `NoMemory` where an
/// allocation fails.
fn trunk_with(
    alloc: Global,
    instance: &Instance,
    nodes: &[TreeNode],
    figures: &Figures,
    stands: &[Stand],
    reaches: &[Reach],
    old: u128,
) -> Result<Trunk, TrunkEnd>
    requires long { length figures.now.nodes ≡ length nodes.now }
    requires range { AreFiguresInRange figures.now }
    requires root { IsRootBefore old figures.now }
    requires reaches { length reaches.now ≡ length stands.now + 1 }
    requires delays { All (λ reach. reach.delay ≤ max_delay) reaches.now }
    requires stages { All (λ reach. reach.stage ≤ max_delay) reaches.now }
    ensures trunk { IfOk result (IsTrunkWith instance.now nodes.now figures.now stands.now reaches.now old) }
    ensures end { IfErr result (EndsWith figures.now stands.now reaches.now old) }
{
    let repeaters = repeaters_at(alloc, stands, reaches)?;
    let last = reaches[stands.len()];
    if last.delay + (figures.arrival_greatest - old) > MAX_DELAY {
        return Err(TrunkEnd::Beyond);
    }
    let node_figures = figures.nodes.items();
    let above_repeaters = &reaches[..stands.len()];
    let met = Met {
        load: load_met(instance, nodes, node_figures, reaches),
        slew: slew_met(
            instance,
            nodes,
            node_figures,
            above_repeaters,
            old,
            last.stage,
        ),
    };
    Ok(assembled(repeaters, reaches[0], last, old, figures, met))
}

/// The trunk with repeaters of this buffer of the library, or why there is none.
fn lay_on(
    alloc: Global,
    instance: &Instance,
    nodes: &[TreeNode],
    figures: &Figures,
    step: u64,
    buffer: u16,
) -> Result<Trunk, TrunkEnd>
    requires step { 0 < step }
    requires small { step < 2 ^ 31 }
    requires known { IsRootKnown instance.now nodes.now figures.now }
    requires range { AreFiguresInRange figures.now }
    requires buffer { buffer < length instance.now.params.library }
    ensures laid { IfOk result (IsLaid instance.now nodes.now step buffer) }
    ensures printable { IfOk result IsPrintableTrunk }
    ensures end { IfErr result (Ends instance.now nodes.now step buffer) }
{
    let repeater = instance.params().library.items()[buffer as usize];
    let root = &nodes[nodes.len() - 1];
    let stands = match root_stands(alloc, instance, root, step) {
        Ok(stands) => stands,
        Err(end) => return Err(end),
    };
    let drive = drive_of(instance, root, figures.source_load, repeater);
    let reaches = match reaches_along(alloc, &drive, stands.as_slice()) {
        Ok(reaches) => reaches,
        Err(end) => return Err(end),
    };
    let old = figures.nodes.items()[nodes.len() - 1].delay;
    trunk_with(
        alloc,
        instance,
        nodes,
        figures,
        stands.as_slice(),
        reaches.as_slice(),
        old,
    )
}

/// The trunk of a tree with repeaters of the library's buffer of this index, at the multiples of a step in nm from the source
/// along the root's route, below the wire's length, wherever a buffer may stand.
///
/// The repeaters cut the root's wire; each is a node with one child. Their loads, delays and stages, and those of the tree
/// below them, are sums over the extended tree. Delays are doubled, in 10^-27 s. The skew is that of the tree. In order, it
/// answers
///
/// - `Buffer` exactly where the library has no buffer of this index,
/// - `Many` exactly where there would be more than 65,536 repeaters,
/// - `Beyond` exactly where the delay at the root and the greatest arrival of a leaf, told from the root on, sum to more than
///   2^104,
/// - `NoMemory` where an allocation fails.
pub fn lay_trunk(
    alloc: Global,
    instance: &Instance,
    tree: &Tree,
    figures: &Figures,
    step: u64,
    buffer: u16,
) -> Result<Trunk, TrunkEnd>
    requires step { 0 < step }
    requires small { step < 2 ^ 31 }
    requires fits { FitsInstance instance.now tree.now }
    requires sound { IsSound instance.now tree.now }
    requires taut { IfSome (root_of tree_children tree.now) (λ root. HasTautTrunk instance.now (label root)) }
    requires figures { HasFigures instance.now tree.now figures.now }
    ensures laid { IfOk result (IsLaid instance.now tree.now step buffer) }
    ensures printable { IfOk result IsPrintableTrunk }
    ensures end { IfErr result (Ends instance.now tree.now step buffer) }
    ensures no_buffer { length instance.now.params.library ≤ buffer → IsErrOf result NoBuffer }
{
    if buffer as usize >= instance.params().library.items().len() {
        return Err(TrunkEnd::Buffer);
    }
    lay_on(alloc, instance, tree.nodes(), figures, step, buffer)
}

//! A pass downward: the figures of each node, from those of the pair above it.

ghost use Rattle.std.specs.Prelude.{◌≡◌, ◌+◌, ◌^◌, ◌<◌, ◌≤◌, ◌↔◌, length, map, All, IfOk, IfSome, IsTrue};
ghost use Rattle.std.specs.List.{AllZip};
ghost use Rattle.cts_units.specs.Choice.{seen_load_of};
ghost use Rattle.cts_units.specs.Limits.{IsBuffer, IsParams, max_delay, max_length, max_load};
ghost use Rattle.cts_postorder.specs.PostOrder.{IsPostOrder, root_of, trees_of};
ghost use Rattle.cts_tree.specs.Nodes.{buffer_of, children_from, tree_children};
ghost use Rattle.cts_elmore.specs.Fits.{FitsInstance, NamesBuffer};
ghost use Rattle.cts_elmore.specs.Outputs.{IsDescent, IsDescentBelow, IsHandedDown, IsOutput, IsPartFigure, IsRootDescent, IsSourceOutput, LoadIsMet, SlewIsMet};
ghost use Rattle.cts_elmore.specs.Subtrees.{IsDrive, IsKnownBelow};

use crate::drive::{Drive, resistance_delay};
use crate::figures::NodeFigure;
use cts_instance::Instance;
use cts_num::NoMemory;
use cts_tree::{NodeKind, TreeNode};
use cts_units::{Buffer, Params, buffer_delay, slew_tenths, wire_delay};
use std::alloc::Global;

/// What the source or a pair hands down: doubled delays in 10^-27 s, below the pair's buffer if it has one.
#[derive(Clone, Copy)]
pub struct Output {
    /// The delay from the source.
    pub delay: u128,
    /// The delay from the buffer or the source that begins the stage.
    pub stage: u128,
}

/// The output of a source of this resistance in µΩ that drives a load in zF.
fn source_output(resistance: u64, load: u64) -> Output
    requires resistance { resistance < 10 ^ 18 }
    requires load { load ≤ max_load }
    ensures { IsSourceOutput resistance load result }
{
    let delay = resistance_delay(resistance, load);
    Output {
        delay,
        stage: delay,
    }
}

/// The output of a pair with these figures. A buffer begins a stage.
fn output_of(library: &[Buffer], buffer: Option<u16>, here: &NodeFigure) -> Output
    requires library { All IsBuffer library.now }
    requires buffer { IfSome buffer (λ index. index < length library.now) }
    requires below { here.now.below ≤ max_load }
    requires delay { here.now.delay ≤ max_delay }
    requires stage { here.now.stage ≤ max_delay }
    ensures output { IsOutput library.now buffer here.now result }
    ensures delay { result.delay ≤ 2 ^ 119 }
    ensures stage { result.stage ≤ 2 ^ 119 }
{
    match buffer {
        Some(index) => {
            let buffer = library[index as usize];
            Output {
                delay: here.delay + buffer_delay(buffer, here.below),
                stage: resistance_delay(buffer.rout, here.below),
            }
        }
        None => Output {
            delay: here.delay,
            stage: here.stage,
        },
    }
}

/// The load that is seen from above a node of this kind.
fn seen_load(library: &[Buffer], kind: NodeKind, below: u64) -> u64
    requires kind { NamesBuffer library.now kind }
    ensures { result ≡ seen_load_of library.now (buffer_of kind) below }
{
    match kind {
        NodeKind::Pair {
            buffer: Some(index),
            ..
        } => library[index as usize].cin,
        NodeKind::Leaf { .. } | NodeKind::Pair { buffer: None, .. } => below,
    }
}

/// The figures of a node that takes this output from above, below a wire of `length` nm, of which the pass upward
/// has known the load, the residue and the offset.
fn part_figure(
    params: &Params,
    kind: NodeKind,
    length: u64,
    part: &NodeFigure,
    output: &Output,
) -> NodeFigure
    requires params { IsParams params.now }
    requires kind { NamesBuffer params.now.library kind }
    requires length { length ≤ max_length }
    requires seen { seen_load_of params.now.library (buffer_of kind) part.now.below ≤ max_load }
    requires delay { output.now.delay ≤ 2 ^ 119 }
    requires stage { output.now.stage ≤ 2 ^ 119 }
    ensures { IsPartFigure params.now kind length part.now output.now result }
{
    let seen = seen_load(params.library.items(), kind, part.below);
    let through = wire_delay(params.wire, length, seen);
    NodeFigure {
        below: part.below,
        residue: part.residue,
        delay: output.delay + through,
        stage: output.stage + through,
        offset: part.offset,
    }
}

/// Whether a node drives no more than the limit in zF, where it has a buffer.
fn is_load_met(limit: u64, kind: NodeKind, below: u64) -> bool
    ensures { IsTrue result ↔ LoadIsMet limit kind below }
{
    match kind {
        NodeKind::Leaf { .. } | NodeKind::Pair { buffer: None, .. } => true,
        NodeKind::Pair {
            buffer: Some(_),
            ..
        } => below <= limit,
    }
}

/// Whether the slew at a node is at most the limit in 10^-27 s, where the node ends a stage.
fn is_slew_met(limit: u64, kind: NodeKind, stage: u128) -> bool
    requires limit { limit < 10 ^ 18 }
    requires stage { stage ≤ max_delay }
    ensures { IsTrue result ↔ SlewIsMet limit kind stage }
{
    match kind {
        NodeKind::Pair { buffer: None, .. } => true,
        NodeKind::Leaf { .. } | NodeKind::Pair { .. } => {
            slew_tenths(stage) <= 10 * limit as u128
        }
    }
}

/// What a pass downward comes to: the figures of each node by number, and whether every buffer, with
/// the source, meets the load limit, and every end of a stage the slew limit.
#[derive(Drop)]
pub struct Descent {
    pub figures: Vec<NodeFigure>,
    pub load_met: bool,
    pub slew_met: bool,
}

/// Whether the limits of the instance are met at the nodes of a stretch.
#[derive(Clone, Copy)]
pub struct Met {
    /// Whether every buffer meets the load limit.
    pub load_met: bool,
    /// Whether every end of a stage meets the slew limit.
    pub slew_met: bool,
}

/// The figures of the nodes of a tree that the source drives so, from what is known of them from below, or
/// `NoMemory` where an allocation fails.
pub fn descend(
    alloc: Global,
    instance: &Instance,
    nodes: &[TreeNode],
    mut figures: Vec<NodeFigure>,
    drive: Drive,
) -> Result<Descent, NoMemory>
    requires post_order { IsPostOrder (map tree_children nodes.now) }
    requires fits { FitsInstance instance.now nodes.now }
    requires known { AllZip (IsKnownBelow instance.now) (trees_of tree_children nodes.now) figures.items }
    requires drive { IfSome (root_of tree_children nodes.now) (λ root. IsDrive instance.now root drive) }
    ensures { IfOk result (λ descent.
        IfSome (root_of tree_children nodes.now) (λ root. IsDescent instance.now root descent)) }
{
    let output = source_output(instance.source_r(), drive.load);
    let met = descend_part(alloc, instance, 0, nodes, figures.as_mut_slice(), output)?;
    let source_met = drive.load <= instance.load_limit();
    Ok(Descent {
        figures,
        load_met: source_met & met.load_met,
        slew_met: met.slew_met,
    })
}

/// What a pass downward comes to at the root of a tree.
#[derive(Clone, Copy)]
pub struct RootDescent {
    /// The root's figures.
    pub figure: NodeFigure,
    /// What it hands down to both of its parts.
    pub output: Output,
    /// Whether the limits of the instance are met at the root, and that of loads by the source.
    pub met: Met,
}

/// The first step of a pass downward: from the source, which drives the root of a tree so, to what the root hands
/// down to its parts. All of the root's figures but the delays are known from below.
pub fn descend_root(
    instance: &Instance,
    nodes: &[TreeNode],
    known: &NodeFigure,
    drive: Drive,
) -> RootDescent
    requires post_order { IsPostOrder (map tree_children nodes.now) }
    requires fits { FitsInstance instance.now nodes.now }
    requires known { IfSome (root_of tree_children nodes.now) (λ root. IsKnownBelow instance.now root known.now) }
    requires drive { IfSome (root_of tree_children nodes.now) (λ root. IsDrive instance.now root drive) }
    ensures { IfSome (root_of tree_children nodes.now) (λ root. IsRootDescent instance.now root result) }
{
    let params = instance.params();
    let last = nodes.len() - 1;
    let kind = nodes[last].kind;
    let above = source_output(instance.source_r(), drive.load);
    let figure = part_figure(params, kind, nodes[last].wire, known, &above);
    let limit = instance.load_limit();
    let root_met = is_load_met(limit, kind, figure.below);
    RootDescent {
        figure,
        output: output_of(params.library.items(), own_buffer(kind), &figure),
        met: Met {
            load_met: (drive.load <= limit) & root_met,
            slew_met: is_slew_met(instance.slew_limit(), kind, figure.stage),
        },
    }
}

/// The index of a node's buffer in the library, if it has one.
pub fn own_buffer(kind: NodeKind) -> Option<u16>
    ensures { result ≡ buffer_of kind }
{
    match kind {
        NodeKind::Leaf { .. } => None,
        NodeKind::Pair { buffer, .. } => buffer,
    }
}

/// What [`descend`] does, for a stretch of a tree's nodes that is a subtree and takes this output from the
/// pair above it, or from the source.
///
/// Its first node has the number `first` in the tree. The figures, of which all but the delays are known
/// from below, are completed in `figures`; where an allocation fails, which `NoMemory` tells, some of them
/// may be.
///
/// The nodes are passed from the last to the first, and no other is looked at on the way: what is handed
/// down waits on a stack until the node below is reached.
pub fn descend_part(
    alloc: Global,
    instance: &Instance,
    first: usize,
    nodes: &[TreeNode],
    figures: &mut [NodeFigure],
    above: Output,
) -> Result<Met, NoMemory>
    requires post_order { IsPostOrder (map (children_from first) nodes.now) }
    requires fits { FitsInstance instance.now nodes.now }
    requires known { AllZip (IsKnownBelow instance.now) (trees_of (children_from first) nodes.now) figures.old }
    requires above { IfSome (root_of (children_from first) nodes.now) (λ t. IsHandedDown instance.now t above) }
    ensures { IfOk result (λ met.
        IfSome (root_of (children_from first) nodes.now) (λ t. IsDescentBelow instance.now above t figures.new met)) }
{
    let params = instance.params();
    let mut outputs = Vec::new(alloc);
    outputs.push(above)?;
    let (mut load_met, mut slew_met) = (true, true);
    for number in (0..nodes.len()).rev() {
        let kind = nodes[number].kind;
        let Some(above) = outputs.pop() else {
            unreachable!()
        };
        let here = part_figure(params, kind, nodes[number].wire, &figures[number], &above);
        figures[number] = here;
        load_met &= is_load_met(instance.load_limit(), kind, here.below);
        slew_met &= is_slew_met(instance.slew_limit(), kind, here.stage);
        if let NodeKind::Pair { buffer, .. } = kind {
            let output = output_of(params.library.items(), buffer, &here);
            outputs.push(output)?;
            outputs.push(output)?;
        }
    }
    Ok(Met { load_met, slew_met })
}

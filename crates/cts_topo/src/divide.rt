//! The division of sinks in halves, along the axis in which they run further. They are sorted once along
//! each axis, and each division splits both lists and keeps their orders.

ghost use Rattle.std.specs.Prelude.{◌≡◌, ℕ, ◌+◌, ◌*◌, ◌%◌, ◌^◌, ◌<◌, ◌≤◌, ◌++◌, ◌∷◌, [], true, false, not, length, map, filter, vec_len, OnOk, IfOk};
ghost use Rattle.std.specs.List.{range_with_len};
ghost use Rattle.std.specs.List.Sorted.{IsPermutation, IsSortedBy};
ghost use Rattle.cts_units.specs.Limits.{max_sinks};
ghost use Rattle.cts_topo.specs.declared.shape.ShapeNode.TheVariants.{Leaf, Pair};
ghost use Rattle.cts_topo.specs.Shape.{IsShapeOver};
ghost use Rattle.cts_topo.specs.Sinks.{AreSinks, IsPlaced};
ghost use Rattle.cts_topo.specs.Topology.{AddsTree, is_before, compare_along, pins_from, shape_of, turned, is_wide as spec_is_wide, pin_of as spec_pin_of};
ghost use Rattle.cts_topo.specs.Divisible.{AreHalves, IsDivisible};
ghost use Rattle.cts_topo.specs.Shuffled.{Shuffled};

use crate::pin::Pin;
use crate::shape::{Shape, ShapeNode};
use cts_num::NoMemory;
use cts_units::Sink;
use std::alloc::Global;
use std::cmp::Ordering;

/// The shape of the tree over these sinks, after the method of means and medians.
///
/// One sink is a leaf. More are divided along x where their extent in x is at least that in y,
/// and else along y: the half of them, rounded up, that comes first by that coordinate, then the
/// other one, then the id, is the left part. Each part is divided in the same way. A leaf names
/// its sink by its place in the list. Takes 1 to 65,536 sinks with distinct ids and coordinates
/// from 0 to 10^8 nm. Answers `NoMemory` where an allocation fails.
pub fn topology(alloc: Global, sinks: &[Sink]) -> Result<Shape, NoMemory>
    requires { AreSinks sinks.now }
    ensures definition { IfOk result (λ shape. shape ≡ shape_of sinks.now) }
    ensures each_sink_once { IfOk result (IsShapeOver (length sinks.now)) }
    ensures count { IfOk result (λ shape. length shape + 1 ≡ 2 * length sinks.now) }
{
    // What stays is made first, so that what goes leaves one room behind it.
    let mut nodes = Vec::with_capacity(alloc, 2 * sinks.len() - 1)?;
    let mut spare = pins_of(alloc, sinks)?;
    let mut by_x = sorted_along(alloc, spare.as_slice(), true)?;
    let mut by_y = sorted_along(alloc, by_x.as_slice(), false)?;
    add_tree(
        0,
        true,
        by_x.as_mut_slice(),
        by_y.as_mut_slice(),
        spare.as_mut_slice(),
        &mut nodes,
    )?;
    Ok(Shape::of(nodes))
}

/// The sinks as pins, in their order.
pub fn pins_of(alloc: Global, sinks: &[Sink]) -> Result<Vec<Pin>, NoMemory>
    requires { AreSinks sinks.now }
    ensures { IfOk result (λ pins. pins.items ≡ pins_from 0 sinks.now) }
{
    let mut pins = Vec::with_capacity(alloc, sinks.len())?;
    for (place, sink) in sinks.iter().enumerate() {
        pins.push(pin_of(sink, place))?;
    }
    Ok(pins)
}

/// A sink as a pin, with its place in the list of sinks.
fn pin_of(sink: &Sink, place: usize) -> Pin
    requires placed { IsPlaced sink.now }
    requires place { place ≤ max_sinks }
    ensures { result ≡ spec_pin_of sink.now place }
{
    Pin {
        x: sink.x.unsigned_abs() as u32,
        y: sink.y.unsigned_abs() as u32,
        id: sink.id,
        sink: place as u32,
    }
}

/// Appends the nodes of the tree over some pins to a list of nodes, whose first one has the number `first`.
///
/// The pins are sorted once along the axis that `wide` names and once across it; `spare` has room for them. All
/// three lists are left in another order. After `NoMemory` the list may have some of the nodes.
pub fn add_tree(
    first: u32,
    wide: bool,
    along: &mut [Pin],
    across: &mut [Pin],
    spare: &mut [Pin],
    nodes: &mut Vec<ShapeNode>,
) -> Result<(), NoMemory>
    requires divisible { IsDivisible wide along.old across.old }
    requires spare { length spare.old ≡ length along.old }
    requires room { first + vec_len nodes.old + 2 * length along.old ≤ 2 ^ 32 }
    ensures count { OnOk result (vec_len nodes.new + 1 ≡ vec_len nodes.old + 2 * length along.old) }
    ensures nodes { OnOk result (AddsTree first along.old nodes.old.items nodes.new.items) }
{
    if along.len() == 1 {
        nodes.push(ShapeNode::Leaf {
            sink: along[0].sink,
        })?;
        return Ok(());
    }
    if is_turned(wide, along, across) {
        return add_tree(first, !wide, across, along, spare, nodes);
    }
    if along.len() == 2 {
        return push_two(first, along[0].sink, along[1].sink, nodes);
    }
    let half = halve(wide, along, across, spare);
    let (left_along, right_along) = along.split_at_mut(half);
    let (left_across, right_across) = spare.split_at_mut(half);
    let (left_spare, right_spare) = across.split_at_mut(half);
    add_tree(first, wide, left_along, left_across, left_spare, nodes)?;
    let left = first + nodes.len() as u32 - 1;
    add_tree(first, wide, right_along, right_across, right_spare, nodes)?;
    let right = first + nodes.len() as u32 - 1;
    nodes.push(ShapeNode::Pair { left, right })?;
    Ok(())
}

/// Parts pins that are divided along the axis that `wide` names. Copies those of `across` to `spare`, and answers
/// the place where `along` and `spare` are parted: before it stand the pins of the left part, from it on the others.
pub fn halve(wide: bool, along: &[Pin], across: &[Pin], spare: &mut [Pin]) -> usize
    requires two { 2 ≤ length along.now }
    requires divisible { IsDivisible wide along.now across.now }
    requires axis { spec_is_wide along.now ≡ wide }
    requires spare { length spare.old ≡ length along.now }
    ensures within { (0 < result) × (result < length along.now) }
    ensures room { length spare.new ≡ length along.now }
    ensures halves { AreHalves wide along.now spare.new result }
{
    let half = along.len().div_ceil(2);
    split(across, wide, along[half], half, spare);
    half
}

/// Appends the nodes of the tree over two sinks, which stand at these places of the list of sinks. At least every other
/// pair of a large tree is such, and a division would take far longer.
fn push_two(first: u32, left: u32, right: u32, nodes: &mut Vec<ShapeNode>) -> Result<(), NoMemory>
    requires { first + vec_len nodes.old + 3 ≤ 2 ^ 32 }
    ensures { OnOk result (nodes.new.items ≡ nodes.old.items ++ Leaf left ∷ Leaf right
        ∷ Pair (first + length nodes.old.items) (first + length nodes.old.items + 1) ∷ []) }
{
    let number = first + nodes.len() as u32;
    nodes.push(ShapeNode::Leaf { sink: left })?;
    nodes.push(ShapeNode::Leaf { sink: right })?;
    nodes.push(ShapeNode::Pair {
        left: number,
        right: number + 1,
    })?;
    Ok(())
}

/// Whether the pins are divided along the other axis than that which `wide` names.
pub fn is_turned(wide: bool, along: &[Pin], across: &[Pin]) -> bool
    requires { IsDivisible wide along.now across.now }
    ensures { result ≡ turned wide along.now }
{
    if wide {
        !is_wide(along, across)
    } else {
        is_wide(across, along)
    }
}

/// Whether pins that are sorted along x and along y run at least as far in x as in y.
fn is_wide(by_x: &[Pin], by_y: &[Pin]) -> bool
    requires some { 0 < length by_x.now }
    requires by_x { IsSortedBy (is_before true) by_x.now }
    requires by_y { IsSortedBy (is_before false) by_y.now }
    requires same { Shuffled by_x.now by_y.now }
    ensures { result ≡ spec_is_wide by_x.now }
{
    let last = by_x.len() - 1;
    by_x[last].x - by_x[0].x >= by_y[last].y - by_y[0].y
}

/// Copies the pins in their order to `target`: those before the pivot, of which there are `half`, then the others.
fn split(pins: &[Pin], wide: bool, pivot: Pin, half: usize, target: &mut [Pin])
    requires half { length (filter (λ p. is_before wide p pivot) pins.now) ≡ half }
    requires room { length target.old ≡ length pins.now }
    ensures { target.new ≡ filter (λ p. is_before wide p pivot) pins.now
        ++ filter (λ p. not (is_before wide p pivot)) pins.now }
{
    let (mut early, mut late) = (0, half);
    for pin in pins {
        // A pin goes either way at random, so that its place is chosen without a branch.
        let before = comes_before(wide, pin, &pivot);
        let place = if before { early } else { late };
        target[place] = *pin;
        early += usize::from(before);
        late += usize::from(!before);
    }
}

/// The pins sorted along x or along y; ties go by the other coordinate, then by id.
pub fn sorted_along(alloc: Global, pins: &[Pin], wide: bool) -> Result<Vec<Pin>, NoMemory>
    requires { length pins.now ≤ max_sinks }
    ensures permutation { IfOk result (λ sorted. IsPermutation pins.now sorted.items) }
    ensures sorted { IfOk result (λ sorted. IsSortedBy (is_before wide) sorted.items) }
{
    let mut sorted = in_rough_order(alloc, pins, wide)?;
    sort_along(&mut sorted, wide);
    Ok(sorted)
}

/// The pins in the order of their rough keys. It is mostly the order along the axis, which the sort then sees in one
/// pass; words are sorted in less than half of the time that pins take.
fn in_rough_order(alloc: Global, pins: &[Pin], wide: bool) -> Result<Vec<Pin>, NoMemory>
    requires { length pins.now ≤ max_sinks }
    ensures { IfOk result (λ ordered. IsPermutation pins.now ordered.items) }
{
    let mut keys = rough_keys(alloc, pins, wide)?;
    keys.sort_unstable();
    let mut ordered = Vec::with_capacity(alloc, pins.len())?;
    for key in &keys {
        ordered.push(pins[place_in(*key)])?;
    }
    Ok(ordered)
}

/// The rough keys of the pins, in their order.
fn rough_keys(alloc: Global, pins: &[Pin], wide: bool) -> Result<Vec<u64>, NoMemory>
    requires { length pins.now ≤ max_sinks }
    ensures { IfOk result (λ keys. map (λ key. key % 2 ^ 17) keys.items ≡ range_with_len 0 (length pins.now)) }
{
    let mut keys = Vec::with_capacity(alloc, pins.len())?;
    for (place, pin) in pins.iter().enumerate() {
        let (first, second) = if wide { (pin.x, pin.y) } else { (pin.y, pin.x) };
        keys.push(rough_key(first, second, place))?;
    }
    Ok(keys)
}

/// A word that orders pins by the first coordinate, by the other one without its last seven bits, and by their place
/// in the list. A coordinate has at most 27 bits, and a place at most 17.
#[inline(always)]
fn rough_key(first: u32, second: u32, place: usize) -> u64
    requires { place ≤ max_sinks }
    ensures { result % 2 ^ 17 ≡ place }
{
    (u64::from(first) << 37)
        .wrapping_add(u64::from(second >> 7) << 17)
        .wrapping_add(place as u64)
}

/// The place in a rough key.
#[inline(always)]
fn place_in(key: u64) -> usize
    ensures { result ≡ key % 2 ^ 17 }
{
    (key % (1 << 17)) as usize
}

/// Sorts the pins along x or along y.
fn sort_along(pins: &mut Vec<Pin>, wide: bool)
    ensures permutation { IsPermutation pins.old.items pins.new.items }
    ensures sorted { IsSortedBy (is_before wide) pins.new.items }
{
    if wide {
        pins.sort_unstable_by(|p, q| compare(true, p, q));
    } else {
        pins.sort_unstable_by(|p, q| compare(false, p, q));
    }
}

/// Whether the first pin comes before the second one along x or along y.
#[inline(always)]
pub(crate) fn comes_before(wide: bool, p: &Pin, q: &Pin) -> bool
    ensures { result ≡ is_before wide p.now q.now }
{
    compare(wide, p, q).is_lt()
}

/// How two pins compare along x or along y. Mostly their first coordinates differ, so that nothing else is looked at.
#[inline(always)]
fn compare(wide: bool, p: &Pin, q: &Pin) -> Ordering
    ensures { result ≡ compare_along wide p.now q.now }
{
    if wide {
        if p.x != q.x {
            return p.x.cmp(&q.x);
        }
        p.y.cmp(&q.y).then(p.id.cmp(&q.id))
    } else {
        if p.y != q.y {
            return p.y.cmp(&q.y);
        }
        p.x.cmp(&q.x).then(p.id.cmp(&q.id))
    }
}

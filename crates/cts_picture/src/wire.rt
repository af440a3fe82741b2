//! One wire of a picture.

ghost use Rattle.std.specs.Prelude.{◌≡◌, ◌+◌, ◌*◌, ◌^◌, ◌<◌, ◌≤◌, [], ◌∷◌, ◌++◌, length, map, All};
ghost use Rattle.std.specs.List.{flat_map};
ghost use Rattle.cts_io.specs.Text.{Puts};
ghost use Rattle.cts_report.specs.Lines.{arrival_words, point_words};
ghost use Rattle.cts_report_reader.specs.Nodes.{seen_arrival, seen_node};
ghost use Rattle.cts_report_reader.specs.Seen.{IsSeen, seen_point};
ghost use Rattle.cts_picture.specs.Drawable.{IsDot, IsDrawableArrival, IsDrawableNode, IsPlace, IsScale};
ghost use Rattle.cts_picture.specs.Dots.{drawn_point, seen_dot};
ghost use Rattle.cts_picture.specs.Wires.{course, dash_words, delay_class, gap, route_length, title_text, way_length, wire_text};

use crate::frame::drawn;
use crate::words::{put_capacitance, put_coordinate, put_length, put_time, put_whole};
use cts_geom::Half;
use cts_io::{ByteSink, SinkBuffer};
use cts_report_reader::{ReportKind, ReportNode};

/// A point of a picture, in 10^-4 µm.
#[derive(Clone, Copy, Debug, PartialEq, Eq)]
pub struct Dot {
    pub x: u64,
    pub y: u64,
}

/// Classes of delay.
#[derive(Clone, Copy, Debug, PartialEq, Eq)]
pub struct Scale {
    /// Where the first class begins, in 10^-16 ps.
    pub start: u128,
    /// How wide each class is, in 10^-16 ps.
    pub step: u128,
}

/// A point of a report.
pub fn dot_of(point: Half) -> Dot
    requires { IsSeen point }
    ensures seen { seen_dot result ≡ seen_point point }
    ensures dot { IsDot result }
{
    Dot {
        x: 5 * point.x.unsigned_abs(),
        y: 5 * point.y.unsigned_abs(),
    }
}

/// A place in nm.
pub fn place_dot(x: i64, y: i64) -> Dot
    requires { IsPlace x y }
    ensures seen { seen_dot result ≡ drawn_point x y }
    ensures dot { IsDot result }
{
    Dot {
        x: drawn(x),
        y: drawn(y),
    }
}

/// A point, its x before its y.
#[tactic(auto, unfolding(cts_report::specs::Lines::point_words))]
pub fn put_dot<K: ByteSink>(out: &mut SinkBuffer, sink: &mut K, dot: Dot)
    ensures { Puts K.ByteSink (sink.old, out.old) (sink.new, out.new) (point_words (seen_dot dot)) }
{
    put_coordinate(out, sink, b" ", dot.x);
    put_coordinate(out, sink, b" ", dot.y);
}

/// A point of a report, its x before its y.
pub fn put_point<K: ByteSink>(out: &mut SinkBuffer, sink: &mut K, point: Half)
    requires { IsSeen point }
    ensures { Puts K.ByteSink (sink.old, out.old) (sink.new, out.new) (point_words (seen_point point)) }
{
    put_dot(out, sink, dot_of(point));
}

fn put_points<K: ByteSink>(out: &mut SinkBuffer, sink: &mut K, points: &[Half])
    requires { All IsSeen points.now }
    ensures { Puts K.ByteSink (sink.old, out.old) (sink.new, out.new)
        (flat_map point_words (map seen_point points.now)) }
{
    for point in points {
        put_point(out, sink, *point);
    }
}

/// The points of a way over corners to another point.
fn put_way<K: ByteSink>(
    out: &mut SinkBuffer,
    sink: &mut K,
    upper: Dot,
    corners: &[Half],
    lower: Dot,
)
    requires { All IsSeen corners.now }
    ensures { Puts K.ByteSink (sink.old, out.old) (sink.new, out.new)
        (flat_map point_words (seen_dot upper ∷ (map seen_point corners.now ++ seen_dot lower ∷ []))) }
{
    put_dot(out, sink, upper);
    put_points(out, sink, corners);
    put_dot(out, sink, lower);
}

/// The points of the wire from `upper` to a node.
fn put_course<K: ByteSink>(out: &mut SinkBuffer, sink: &mut K, upper: Dot, node: &ReportNode)
    requires { IsDrawableNode node.now }
    ensures { Puts K.ByteSink (sink.old, out.old) (sink.new, out.new)
        (flat_map point_words (course (seen_dot upper) (seen_node node.now))) }
{
    put_way(out, sink, upper, node.corners.items(), dot_of(node.place));
}

/// The Manhattan distance of two points, in 10^-4 µm.
fn distance(a: Dot, b: Dot) -> u64
    requires a { IsDot a }
    requires b { IsDot b }
    ensures same { result ≡ gap a.x b.x + gap a.y b.y }
    ensures bound { result ≤ 2 * 10 ^ 9 }
{
    a.x.abs_diff(b.x) + a.y.abs_diff(b.y)
}

/// The length of a way from a point over corners to another point, in 10^-4 µm.
fn way_length(upper: Dot, corners: &[Half], lower: Dot) -> u64
    requires upper { IsDot upper }
    requires corners { All IsSeen corners.now }
    requires few { length corners.now ≤ 65536 }
    requires lower { IsDot lower }
    ensures { result ≡ way_length (seen_dot upper) (map seen_point corners.now ++ seen_dot lower ∷ []) }
{
    let mut length = 0;
    let mut at = upper;
    for corner in corners {
        let next = dot_of(*corner);
        length += distance(at, next);
        at = next;
    }
    length + distance(at, lower)
}

/// The length of the route of the wire from `upper` to a node, in 10^-4 µm.
fn route_length(upper: Dot, node: &ReportNode) -> u64
    requires upper { IsDot upper }
    requires node { IsDrawableNode node.now }
    ensures { result ≡ route_length (seen_dot upper) (seen_node node.now) }
{
    way_length(upper, node.corners.items(), dot_of(node.place))
}

/// The class of a delay, from 0 to 7.
fn delay_class(scale: &Scale, delay: u128) -> u64
    requires { IsScale scale.now }
    ensures { result ≡ delay_class scale.now delay }
{
    let class = delay.saturating_sub(scale.start) / scale.step;
    class.min(7) as u64
}

/// The word that dashes a wire which is longer than its route.
#[tactic(auto, unfolding(crate::specs::Wires::dash_words))]
fn put_dash<K: ByteSink>(out: &mut SinkBuffer, sink: &mut K, wire: u32, route: u64)
    ensures { Puts K.ByteSink (sink.old, out.old) (sink.new, out.new) (dash_words wire route) }
{
    let dash: &[u8] = if route < 10 * u64::from(wire) {
        b" l"
    } else {
        b""
    };
    out.put(sink, dash);
}

/// The arrival of a leaf, where the report tells it.
fn put_arrival<K: ByteSink>(out: &mut SinkBuffer, sink: &mut K, kind: ReportKind)
    requires { IsDrawableArrival (seen_arrival kind) }
    ensures { Puts K.ByteSink (sink.old, out.old) (sink.new, out.new) (arrival_words (seen_arrival kind)) }
{
    match kind {
        ReportKind::TimedLeaf { arrival, .. } => put_time(out, sink, b" arrival ", arrival),
        ReportKind::Leaf { .. } | ReportKind::Pair { .. } => {}
    }
}

/// What is shown under the pointer.
fn put_title<K: ByteSink>(
    out: &mut SinkBuffer,
    sink: &mut K,
    number: u64,
    route: u64,
    node: &ReportNode,
)
    requires { IsDrawableNode node.now }
    ensures { Puts K.ByteSink (sink.old, out.old) (sink.new, out.new) (title_text number route (seen_node node.now)) }
{
    put_whole(out, sink, b"'><title>node ", number);
    put_length(out, sink, b" wire ", node.wire);
    put_coordinate(out, sink, b" route ", route);
    put_capacitance(out, sink, b" load ", node.load);
    put_time(out, sink, b" delay ", node.delay);
    put_arrival(out, sink, node.kind);
    put_time(out, sink, b" slew ", node.slew);
    out.put(sink, b"</title></path>\n");
}

/// The wire from `upper` to the node of this number.
pub fn put_wire<K: ByteSink>(
    out: &mut SinkBuffer,
    sink: &mut K,
    scale: &Scale,
    upper: Dot,
    number: u64,
    node: &ReportNode,
)
    requires scale { IsScale scale.now }
    requires upper { IsDot upper }
    requires node { IsDrawableNode node.now }
    ensures { Puts K.ByteSink (sink.old, out.old) (sink.new, out.new)
        (wire_text scale.now (record { number = number; upper = seen_dot upper; node = seen_node node.now })) }
{
    let route = route_length(upper, node);
    put_whole(out, sink, b"<path class='d", delay_class(scale, node.delay));
    put_dash(out, sink, node.wire, route);
    out.put(sink, b"' d='M");
    put_course(out, sink, upper, node);
    put_title(out, sink, number, route, node);
}

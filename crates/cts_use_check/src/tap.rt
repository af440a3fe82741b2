//! A tree made by hand: a pair on the line between two sinks.

ghost use Rattle.std.specs.Prelude.{◌≡◌, All, IfOk};
ghost use Rattle.cts_elmore.specs.Fits.{FitsInstance};
ghost use Rattle.cts_report.specs.Report.{IsOnSheet, IsPrintableNode};

use anyhow::bail;
use cts_geom::{Half, spot_of};
use cts_instance::Instance;
use cts_tree::{Corners, NodeKind, Route, Tree, TreeNode};
use std::alloc::Global;

/// The y of the sinks and of the pair, in nm.
const Y: u16 = 4_000;
/// The x of the second sink, in nm. That of the first one is 0.
const SECOND_X: u16 = 10_000;

/// Where the pair stands, and the wires of the tree.
#[derive(Clone, Copy)]
pub(crate) struct Tap {
    /// The x of the pair, in nm.
    pub(crate) x: u16,
    /// The wires to the first sink, to the second sink and to the pair, in nm.
    pub(crate) wires: (u64, u64, u64),
}

/// A route along one axis.
fn straight(from: u16, to: u16) -> Route
    ensures { All IsOnSheet result.corners }
{
    Route {
        corners: Corners::none(),
        length: u64::from(from.abs_diff(to)),
    }
}

/// The route from the source, at (0, 0), along x and then along y.
fn bent(x: u16, y: u16) -> Route
    ensures { All IsOnSheet result.corners }
{
    let corner = Half {
        x: 2 * i64::from(x),
        y: 0,
    };
    Route {
        corners: Corners::one(corner),
        length: u64::from(x) + u64::from(y),
    }
}

/// A node at (x, Y), in nm.
fn node(kind: NodeKind, x: u16, wire: u64, route: Route) -> TreeNode
    requires { All IsOnSheet route.corners }
    ensures kind { result.kind ≡ kind }
    ensures printable { IsPrintableNode result }
{
    TreeNode {
        kind,
        place: spot_of(i64::from(x), i64::from(Y)),
        wire,
        route,
    }
}

/// The tree of a tap over the two sinks of an instance.
pub(crate) fn tree_of(alloc: Global, instance: &Instance, tap: Tap) -> anyhow::Result<Tree>
    ensures fits { IfOk result (FitsInstance instance.now) }
    ensures printable { IfOk result (All IsPrintableNode) }
{
    let sinks = instance.sinks();
    if sinks.len() != 2 {
        bail!("a pair has two sinks");
    }
    let first = NodeKind::Leaf {
        id: sinks[0].id,
        sink: 0,
    };
    let second = NodeKind::Leaf {
        id: sinks[1].id,
        sink: 1,
    };
    let pair = NodeKind::Pair {
        left: 0,
        right: 1,
        buffer: None,
    };
    let nodes = vec![in alloc;
        node(first, 0, tap.wires.0, straight(tap.x, 0)),
        node(second, SECOND_X, tap.wires.1, straight(tap.x, SECOND_X)),
        node(pair, tap.x, tap.wires.2, bent(tap.x, Y)),
    ]?;
    let tree = Tree::of(nodes);
    Ok(tree)
}

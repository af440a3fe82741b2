//! The places of a tree's nodes as a pass by halves: that of the root, and then those of its two parts.

ghost use Rattle.std.specs.Prelude.{◌≡◌, IfErr, IfOk, MatchOption};
ghost use Rattle.cts_tree.specs.declared.nodes.TreeNode.{TreeNode};
ghost use Rattle.cts_embed.specs.Stretches.{IsPlacedAt, StretchEnds};
ghost use Rattle.cts_shape_workers.specs.Placing.{AreBranches, ArePlacedBy, CanBePlaced, HasRoom, IsPrepared};

use cts_beside::{Halved, Halves};
use cts_embed::{EmbedEnd, Ground, place_known};
use cts_geom::Spot;
use cts_instance::Instance;
use cts_topo::ShapeNode;
use cts_tree::TreeNode;
use cts_up::Site;
use std::alloc::Global;

/// What a shape is placed by: its sites, and the ids of the leaves' sinks, each at the number of its leaf.
#[derive(Clone, Copy)]
pub(crate) struct Placing<'a> {
    pub(crate) alloc: Global,
    pub(crate) instance: &'a Instance,
    pub(crate) ground: &'a Ground,
    pub(crate) nodes: &'a [ShapeNode],
    pub(crate) sites: &'a [Site],
    pub(crate) ids: &'a [u32],
}

/// The tree at the number `root` of the shape, whose nodes have the numbers from `first` on, and the place where the route to
/// its root starts.
#[derive(Clone, Copy)]
pub(crate) struct Branch {
    pub(crate) first: u32,
    pub(crate) root: u32,
    pub(crate) from: Spot,
}

impl<'a> Halved for Placing<'a> {
    ghost use Rattle.std.specs.Prelude.{◌≡◌, length};
    ghost use Rattle.cts_shape_workers.specs.Placing.{AreBranches, ArePlacedBy, HasRoom};

    type Part = Branch;

    type Place = TreeNode;

    type Over = TreeNode;

    type Answer = Result<(), EmbedEnd>;

    ghost ready = { HasRoom };

    ghost cuts = { λ work part _ _ own left right node. AreBranches work part node left right × (length own ≡ 1) };

    ghost made = { λ work part _ room end. ArePlacedBy work part room end };

    fn alone(&self, part: &Branch, room: &mut [TreeNode]) -> Result<(), EmbedEnd> {
        place_alone(self, part, room)
    }

    fn cut(&self, part: &Branch, _room: &[TreeNode]) -> Option<Halves<Branch, TreeNode>> {
        let Ok(node) = place_root(self, part) else {
            return None;
        };
        let (front, back) = branches(self, part, node.place)?;
        let middle = (front.root + 1 - part.first) as usize;
        let last = (part.root - part.first) as usize;
        Some(Halves {
            front,
            back,
            middle,
            last,
            over: node,
        })
    }

    /// The end of the right part is told before that of the left one, since it has the greater numbers.
    fn join(
        &self,
        _part: &Branch,
        _first: &Branch,
        _second: &Branch,
        node: TreeNode,
        _front: &mut [TreeNode],
        _back: &mut [TreeNode],
        own: &mut [TreeNode],
        a: Result<(), EmbedEnd>,
        b: Result<(), EmbedEnd>,
    ) -> Result<(), EmbedEnd> {
        b?;
        a?;
        own[0] = node;
        Ok(())
    }
}

/// Places a tree by one worker, which begins with the right part: where a node of it is cut, that node is the greatest.
fn place_alone(work: &Placing<'_>, part: &Branch, out: &mut [TreeNode]) -> Result<(), EmbedEnd>
    requires { HasRoom work.now part.now out.old }
    ensures { ArePlacedBy work.now part.now out.new result }
{
    let node = place_root(work, part)?;
    let place = node.place;
    let (below, own) = out.split_at_mut((part.root - part.first) as usize);
    own[0] = node;
    let Some((left, right)) = branches(work, part, place) else {
        return Ok(());
    };
    let (front, back) = below.split_at_mut((left.root + 1 - part.first) as usize);
    place_alone(work, &right, back)?;
    place_alone(work, &left, front)
}

/// The placed root of a tree. Answers `Cut` with its number where no route reaches it, and `NoMemory` where an allocation
/// fails.
fn place_root(work: &Placing<'_>, part: &Branch) -> Result<TreeNode, EmbedEnd>
    requires prepared { IsPrepared work.now }
    requires placeable { CanBePlaced work.now part.now }
    ensures placed { IfOk result (IsPlacedAt work.now.instance.now work.now.nodes.now part.now.root) }
    ensures ends { IfErr result (StretchEnds work.now.instance.now work.now.nodes.now part.now.root part.now.root) }
{
    let id = work.ids[part.root as usize];
    place_known(
        work.alloc,
        work.instance,
        work.ground,
        work.nodes,
        work.sites,
        part.root,
        id,
        part.from,
    )
}

/// The two parts of a tree whose root has this place, or `None` for a leaf.
fn branches(work: &Placing<'_>, part: &Branch, place: Spot) -> Option<(Branch, Branch)>
    requires { CanBePlaced work.now part.now }
    ensures { (node : TreeNode) → node.place ≡ place → IsPlacedAt work.now.instance.now work.now.nodes.now part.now.root node
        → MatchOption result (part.now.root ≡ part.now.first) (λ b. AreBranches work.now part.now node b.0 b.1) }
{
    match work.nodes[part.root as usize] {
        ShapeNode::Leaf { .. } => None,
        ShapeNode::Pair { left, right } => Some((
            Branch {
                first: part.first,
                root: left,
                from: place,
            },
            Branch {
                first: left + 1,
                root: right,
                from: place,
            },
        )),
    }
}

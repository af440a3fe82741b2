//! What a draw makes of a plan: the tree with its figures, or its skew and its wire alone.

ghost use Rattle.std.specs.Prelude.{◌≡◌, ℕ, length, IfErr, IfOk};
ghost use Rattle.cts_instance.specs.declared.parts.Parts.{Parts};
ghost use Rattle.cts_instance.specs.Validity.{IsValid};
ghost use Rattle.cts_topo.specs.Shape.{IsShapeOver};
ghost use Rattle.cts_topo.specs.Topology.{shape_of};
ghost use Rattle.cts_up.specs.Sites.{AreSites};
ghost use Rattle.cts_plain.specs.Ends.{Ends};

use crate::draw::{Drawn, VersionTotals};
use cts_instance::Instance;
use cts_plain::{NoTree, finish_sites, totals_of};
use cts_topo::Shape;
use cts_up::Site;
use std::alloc::Global;

/// What a draw makes of the plan of a version of the sinks.
pub(crate) trait Finish {
    /// What is made.
    type Made;

    /// It is made of an instance whose version has this number.
    ghost makes: { Self → Parts → ℕ → Self.Made → Type 0 };

    /// Makes it by the shape of the instance's sinks and the sites of its plan, or tells why there is no tree.
    fn finish(
        &self,
        alloc: Global,
        instance: &Instance,
        version: u32,
        shape: &Shape,
        sites: &[Site],
    ) -> Result<Self::Made, NoTree>
        requires valid { IsValid instance.now }
        requires shape { shape.now ≡ shape_of instance.now.sinks }
        requires over { IsShapeOver (length instance.now.sinks) shape.now }
        requires sites { AreSites instance.now.params instance.now.sinks shape.now sites.now }
        ensures makes { IfOk result (makes self.now instance.now version) }
        ensures ends { IfErr result (Ends instance.now) };
}

/// The tree, with its figures.
#[derive(Clone, Copy)]
pub(crate) struct WholeTree;

impl Finish for WholeTree {
    ghost use Rattle.cts_session.specs.Draws.{IsTreeOf};

    type Made = Drawn;

    ghost makes = { λ _ i version drawn. IsTreeOf i version drawn };

    fn finish(
        &self,
        alloc: Global,
        instance: &Instance,
        version: u32,
        shape: &Shape,
        sites: &[Site],
    ) -> Result<Drawn, NoTree> {
        let Ok(sites) = Vec::from_slice(alloc, sites) else {
            return Err(NoTree::NoMemory);
        };
        let (tree, figures) = finish_sites(alloc, instance, shape, sites)?;
        Ok(Drawn {
            version,
            tree,
            figures,
        })
    }
}

/// The skew and the wire of the tree, which isn't made.
#[derive(Clone, Copy)]
pub(crate) struct TotalsAlone;

impl Finish for TotalsAlone {
    ghost use Rattle.cts_session.specs.Draws.{AreTotalsOf};

    type Made = VersionTotals;

    ghost makes = { λ _ i version summed. AreTotalsOf i version summed };

    fn finish(
        &self,
        alloc: Global,
        instance: &Instance,
        version: u32,
        shape: &Shape,
        sites: &[Site],
    ) -> Result<VersionTotals, NoTree> {
        let totals = totals_of(alloc, instance, shape, sites)?;
        Ok(VersionTotals { version, totals })
    }
}

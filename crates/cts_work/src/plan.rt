//! A plan in the parts in which workers made it.

ghost use Rattle.std.specs.Prelude.{◌≡◌, ◌++◌, map, IfOk, OnOk};
ghost use Rattle.cts_up.specs.Sites.{site_of as place_of};
ghost use Rattle.cts_work.specs.Plans.{nodes_of};

use cts_merge::Finished;
use cts_num::NoMemory;
use cts_up::{Site, site_of};
use std::alloc::Global;

/// What the nodes of a piece are made of, and then the pairs above it, up to the next piece.
#[derive(Drop)]
pub(crate) struct PlanPart {
    /// The number of the piece.
    pub(crate) piece: u32,
    pub(crate) nodes: Vec<Finished>,
}

/// What the nodes of a shape are made of, in the parts in which workers made it. They stay where they were made: a plan
/// is long, and those who read it go through it once.
#[derive(Drop)]
pub struct Plan {
    pub(crate) parts: Vec<PlanPart>,
    /// How many nodes the parts have.
    pub(crate) count: usize,
}

/// The sites of some nodes more.
fn add_sites(nodes: &[Finished], sites: &mut Vec<Site>) -> Result<(), NoMemory>
    ensures { OnOk result (sites.new.items ≡ sites.old.items ++ map place_of nodes.now) }
{
    for finished in nodes {
        sites.push(site_of(finished))?;
    }
    Ok(())
}

impl Plan {
    /// The sites of the nodes, by number. `NoMemory` comes where an allocation fails.
    pub fn sites(&self, alloc: Global) -> Result<Vec<Site>, NoMemory>
        ensures { IfOk result (λ sites. sites.items ≡ map place_of (nodes_of self.now)) }
    {
        let mut sites = Vec::with_capacity(alloc, self.count)?;
        for part in &self.parts {
            add_sites(&part.nodes, &mut sites)?;
        }
        Ok(sites)
    }

    /// The nodes in one list, by number.
    pub(crate) fn to_list(&self, alloc: Global) -> Result<Vec<Finished>, NoMemory>
        ensures { IfOk result (λ list. list.items ≡ nodes_of self.now) }
    {
        let mut list = Vec::with_capacity(alloc, self.count)?;
        for part in &self.parts {
            list.extend_from_slice(&part.nodes)?;
        }
        Ok(list)
    }
}

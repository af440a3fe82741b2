//! The ids of the sinks that were seen so far.

ghost use Rattle.std.specs.Prelude.{◌≡◌, ◌≤◌, [], ◌∷◌, ◌++◌, length, vec_len, nat_eq, not, if◌then◌else◌, IfOk, OnOk, OnErr};
ghost use Rattle.std.specs.List.{list_any};
ghost use Rattle.cts_instance.specs.Ids.{HasFirst};

use cts_num::NoMemory;
use std::alloc::Global;
use std::collections::BTreeSet;
use std::marker::Model;

/// Distinct ids, in the order in which they came.
///
/// An id above all others is new without a look. The others are looked for in an ordered set, to
/// which the ids before them are added first. So ids that rise cost next to nothing, and no choice of
/// ids costs more than their number times its logarithm.
#[derive(Drop)]
pub struct SinkIds {
    ids: Vec<u32>,
    /// The first `ordered` ids.
    known: BTreeSet<u32>,
    ordered: usize,
    /// One more than the greatest id, or 0.
    end: u64,
}

impl Model for SinkIds {
    ghost use Rattle.std.specs.Prelude.{ℕ, List};
    ghost use Rattle.cts_instance.specs.Ids.{IsOrderedInPart};

    ghost Value = { List ℕ };

    ghost view = { λ seen. seen.ids.items };

    ghost invariant = { λ seen. IsOrderedInPart seen.ids.items seen.known seen.ordered seen.end };
}

impl SinkIds {
    /// No ids yet, with room for this many.
    pub fn with_capacity(alloc: Global, count: usize) -> Result<SinkIds, NoMemory>
        ensures { IfOk result (λ ids. ids ≡ []) }
    {
        Ok(SinkIds {
            ids: Vec::with_capacity(alloc, count)?,
            known: BTreeSet::new(alloc),
            ordered: 0,
            end: 0,
        })
    }

    /// How many ids there are.
    pub fn len(&self) -> usize
        ensures { result ≡ length self.now }
    {
        self.ids.len()
    }

    /// Adds an id, and says whether it is new. One that is there already changes nothing, and nor
    /// does want of memory.
    pub fn insert(&mut self, id: u32) -> Result<bool, NoMemory>
        ensures new { IfOk result (λ is_new. is_new ≡ not (list_any (nat_eq id) self.old)) }
        ensures added { OnOk result (self.new
            ≡ (if list_any (nat_eq id) self.old then self.old else self.old ++ id ∷ [])) }
        ensures err { OnErr result (self.new ≡ self.old) }
    {
        if u64::from(id) >= self.end {
            self.ids.push(id)?;
            self.end = u64::from(id) + 1;
            return Ok(true);
        }
        order(&self.ids, &mut self.known, &mut self.ordered)?;
        let is_new = add(&mut self.ids, &mut self.known, id)?;
        self.ordered = self.ids.len();
        Ok(is_new)
    }
}

/// Adds an id to the ids, and to the ordered set that has them all.
fn add(ids: &mut Vec<u32>, known: &mut BTreeSet<u32>, id: u32) -> Result<bool, NoMemory>
    requires { HasFirst ids.old.items (vec_len ids.old) known.old }
    ensures new { IfOk result (λ is_new. is_new ≡ not (list_any (nat_eq id) ids.old.items)) }
    ensures added { OnOk result (ids.new.items
        ≡ (if list_any (nat_eq id) ids.old.items then ids.old.items else ids.old.items ++ id ∷ [])) }
    ensures all { OnOk result (HasFirst ids.new.items (vec_len ids.new) known.new) }
    ensures err { OnErr result (ids.new.items ≡ ids.old.items) }
    ensures kept { OnErr result (HasFirst ids.old.items (vec_len ids.old) known.new) }
{
    ids.push(id)?;
    match known.insert(id) {
        Ok(true) => Ok(true),
        Ok(false) => {
            ids.pop();
            Ok(false)
        }
        Err(_) => {
            ids.pop();
            Err(NoMemory)
        }
    }
}

/// Puts all ids into the ordered set, of which it has the first `ordered`.
fn order(ids: &[u32], known: &mut BTreeSet<u32>, ordered: &mut usize) -> Result<(), NoMemory>
    requires within { ordered.old ≤ length ids.now }
    requires first { HasFirst ids.now ordered.old known.old }
    ensures within { ordered.new ≤ length ids.now }
    ensures first { HasFirst ids.now ordered.new known.new }
    ensures all { OnOk result (ordered.new ≡ length ids.now) }
{
    while *ordered < ids.len() {
        known.insert(ids[*ordered])?;
        *ordered += 1;
    }
    Ok(())
}

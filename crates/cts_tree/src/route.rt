//! Routes of wires.

use cts_geom::Half;
use cts_num::NoMemory;
use std::alloc::Global;
use std::marker::Model;
use std::slice;

/// How corners are kept: most routes have one or none, and those own no memory. A list is boxed, so that it doesn't
/// make every node longer.
#[derive(Drop)]
enum Kept {
    None,
    One(Half),
    Many(Box<Vec<Half>>),
}

/// The corners of a route in order, from its start to its end, in half nm.
#[derive(Drop)]
pub struct Corners {
    kept: Kept,
}

impl Model for Corners {
    ghost use Rattle.std.specs.Prelude.{List};
    ghost use Rattle.cts_geom.specs.declared.points.Half.{Half};
    ghost use Rattle.cts_tree.specs.Corners.{corners_kept};

    ghost Value = { List Half };

    ghost view = { λ corners. corners_kept corners.kept };
}

impl Corners {
    ghost use Rattle.std.specs.Prelude.{◌≡◌, [], ◌∷◌, IfOk};

    /// No corner: the route is straight, or has no length.
    pub fn none() -> Corners
        ensures { result ≡ [] }
    {
        Corners { kept: Kept::None }
    }

    /// One corner.
    pub fn one(corner: Half) -> Corners
        ensures { result ≡ corner ∷ [] }
    {
        Corners {
            kept: Kept::One(corner),
        }
    }

    /// These corners, in this order. Answers NoMemory where an allocation fails.
    pub fn of(alloc: Global, items: Vec<Half>) -> Result<Corners, NoMemory>
        ensures { IfOk result (λ corners. corners ≡ items.items) }
    {
        match items.as_slice() {
            [] => Ok(Corners::none()),
            [corner] => Ok(Corners::one(*corner)),
            _ => {
                let kept = Kept::Many(Box::new(alloc, items)?);
                Ok(Corners { kept })
            }
        }
    }

    /// The corners in order.
    pub fn items(&self) -> &[Half]
        ensures { result.now ≡ self.now }
    {
        match &self.kept {
            Kept::None => &[],
            Kept::One(corner) => slice::from_ref(corner),
            Kept::Many(corners) => corners.as_ref().as_slice(),
        }
    }
}

/// The way of a wire from the place of the pair above it, or from the source, to its own lower end.
#[derive(Drop)]
pub struct Route {
    /// The points between the two ends where the way turns, in half nm.
    pub corners: Corners,
    /// The length of the way in nm.
    pub length: u64,
}

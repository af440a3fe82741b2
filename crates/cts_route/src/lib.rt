//! Routes of wires: shortest paths of a grid round the blocks that stop wires.
//!
//! A layer above calls [`route`], or makes one [`Grid`] for a die with its blocks and asks it for many
//! routes. It asks [`Walls`] which segments are clear of blocks, whoever made them. It cites
//! `specs/Routes.antt` for what a route is and when two points are cut, and `specs/Grid.antt` for the
//! grid and for clear segments; both range over lists of points and know no table, heap or window.
//! `laws` says that any two spots have one route or are cut, never both, and that the way along x first
//! and then along y is the route where it is clear.
//!
//! Below the calls stand the walls and the clear segments (`clear`), the lines (`lines`), the numbered
//! points of a grid with the lengths of their steps (`window`, `graph`), the labels of a search
//! (`table`) and the way down along them (`walk`), what a search in a part of the grid sees (`view`)
//! and how this part grows (`frame`).
#![tactic(auto)]

mod clear;
mod direction;
mod end;
mod frame;
mod graph;
mod grid;
pub mod laws;
mod lines;
mod table;
mod view;
mod walk;
mod wall;
mod walls;
mod window;

pub use end::RouteEnd;
pub use grid::{Grid, route};
pub use walls::Walls;

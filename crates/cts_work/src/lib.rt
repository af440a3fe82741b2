//! The upward pass over a memo that threads share.
//!
//! A layer above has a shape's plan made by one caller with [`rebuild`], which makes no more merges than the memo lacks pairs,
//! or by many workers with [`build_all`]. Both answer as the upward pass of `cts_up` does, whatever the memo holds and whoever
//! shares it, and leave every subtree in the memo, or the memo full. What [`build_all`] does comes in two halves too: workers
//! make the [`Plan`] with [`plan_all`], in parts that stay where they were made, and whoever has time brings it into the memo
//! with [`publish_plan`], beside the passes that want its [`Plan::sites`] alone. A caller that builds one tree after another takes the sites of its plan with [`rebuild_with`], which asks the memo only for nodes that are neither known of its trees
//! nor among what was published since. A [`Gate`] is called before each piece of the work, and between a look-up and what is
//! published for it; no answer depends on it.
#![tactic(auto)]

mod again;
mod all;
mod gate;
mod hearing;
mod hints;
mod known;
mod last;
mod making;
mod node;
mod part;
mod past;
mod pieces;
mod place;
mod plan;
mod planning;
mod publishing;
mod upward;
mod work;
mod workers;

pub use all::build_all;
pub use gate::{Gate, OpenGate};
pub use past::Past;
pub use plan::Plan;
pub use planning::plan_all;
pub use publishing::publish_plan;
pub use upward::{rebuild, rebuild_with};

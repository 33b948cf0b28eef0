//! Pipelines are built here: handlers are added by name, placed on executors, and become the two chains of a path.
#![tactic(auto)]

mod building;
mod faults;
mod grouping;
mod limits;
mod named_stages;
mod names;
mod placed;
mod splitting;

pub use building::{PipelineBuilder, Unbuilt};
pub use faults::BuildFault;
pub use grouping::Groups;
pub use limits::{
    DEFAULT_HIGH, DEFAULT_LOW, MAX_EXECUTORS, MAX_HANDLERS, MAX_MARK, MAX_NAME_LENGTH,
};
pub use named_stages::{Inserted, NamedStage, Unadded};
pub use placed::Placed;

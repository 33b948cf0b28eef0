//! What goes along lanes, for whoever passes it on: words for contracts, and their laws; and the moves of a head.
#![tactic(auto)]

mod head_moves;
mod laws;

pub use head_moves::HeadMove;
pub use laws::{flow_law, item_law, make_law, stage_flow_law};

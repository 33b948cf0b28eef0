//! Parts of channels: the nodes of a channel that are on one executor, where lanes may fail.
#![tactic(auto)]

mod kept;
mod laws;
mod new_contexts;
mod parts;
mod paths;
mod refusing;
mod shares;

pub use kept::KeptStage;
pub use laws::head_law;
pub use parts::ChannelPart;
pub use shares::take_where;

//! A session is looked at here: what each move of a schedule does, as text and as a picture, and where its text is refused.
#![tactic(auto)]

mod checking;
mod edits;
mod envelope_texts;
mod move_lines;
mod names;
mod picture;
mod program;
mod shown;
mod tracing;

pub use checking::{Checked, check};
pub use program::{refuse_args, run_trace};

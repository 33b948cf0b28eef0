//! The texts: of a session, of its moves, and of the report. `docs/FORMATS.md` has their rules.
#![tactic(auto)]

mod faults;
mod moves_text;
mod report_text;
mod session_text;

pub use faults::{MovesFault, PrintFault, SessionFault};
pub use moves_text::{MAX_MOVES, MoveTerm, moves_as_text, read_moves};
pub use report_text::{add_event, add_hex, print_report, stands_text};
pub use session_text::{
    MAX_EDITS, MAX_FAIL_AT, MAX_GROUP_SIZE, MAX_SESSION_TEXT, MAX_USER_EVENT, MAX_WINDOW,
    read_session,
};

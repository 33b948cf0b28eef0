//! The built-in handlers: framing by lines and by lengths, the commands, their replies.
#![tactic(auto)]

mod command_decoder;
mod flush_every;
mod handlers;
mod laws;
mod length_framer;
mod length_prepender;
mod length_width;
mod limits;
mod line_end;
mod line_framer;
mod line_service;
mod numbers;
mod reply_encoder;
mod stage_refusal;
mod thrifty;
mod totals;

pub use command_decoder::CommandDecoder;
pub use flush_every::FlushEvery;
pub use handlers::Handler;
pub use laws::{command_law, count_law, framing_law, length_framing_law, service_law};
pub use length_framer::LengthFramer;
pub use length_prepender::LengthPrepender;
pub use limits::{MAX_DIGITS, MAX_FLUSHES, MAX_FRAME, MAX_KEYS, MAX_LINE, MAX_TOTAL};
pub use line_end::LineEnd;
pub use line_framer::LineFramer;
pub use line_service::LineService;
pub use reply_encoder::{ReplyEncoder, reply_text};
pub use stage_refusal::StageRefusal;
pub use thrifty::{Thrifty, ThriftyBare, ThriftyMapping};

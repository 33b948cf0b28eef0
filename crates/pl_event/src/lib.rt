//! What flows through a pipeline, and what a handler is: events and their messages, how writes end, and the law of a
//! stage. It stands on no other library of this repository.
//!
//! A handler takes events one by one, and adds what it makes of each to two lists: `up`, for the next inbound handler or
//! the tail, and `down`, for the next outbound handler or the head.
//!
//! ```text
//! let mut up = Vec::new(alloc);
//! let mut down = Vec::new(alloc);
//! let turned = stage.step(Event::Active, &mut up, &mut down)?;
//! ```
//!
//! It answers `Turned::Ended` once it has quit. [`Stage`] has the law that every handler keeps. A handler of your own is,
//! from the shortest to the longest:
//!
//! - a [`Mapping`], where it makes one event of each: [`MapUp`] and [`MapDown`] are its stages;
//! - a [`BareStage`], where it remembers something or makes more or fewer events: [`Fused`] is its stage;
//! - a [`Stage`];
//! - and [`Either`] is one of two stages, so that several kinds stand in one pipeline.
//!
//! The README has them in code that is proved; of a `BareStage` it names one.
//!
//! Contexts hand a handler's events to one another as [`Envelope`]s: an [`Item`] with its number on a [`Lane`].
#![tactic(auto)]

mod bare_stages;
mod byte_string;
mod either;
mod elements;
mod envelopes;
mod events;
mod fitting_laws;
mod keys;
mod lane_laws;
mod limits;
mod mappings;
mod named;
mod outcomes;
mod sequence;
mod stages;

pub use bare_stages::{BareStage, Fused, Taken};
pub use byte_string::ByteString;
pub use either::Either;
pub use elements::Element;
pub use envelopes::{Envelope, Item, Kind, Lane};
pub use events::{Caught, Command, Event, Fault, Message, Reply};
pub use fitting_laws::fitting_law;
pub use keys::{Key, MAX_KEY_LENGTH};
pub use lane_laws::lane_law;
pub use limits::{MAX_CAPACITY, MAX_HANDLERS, MAX_ITEMS};
pub use mappings::{MapDown, MapUp, Mapping};
pub use named::Named;
pub use outcomes::{Cause, Outcome};
pub use sequence::Sequence;
pub use stages::{Changed, Direction, Stage, StageFault, Stepped, Turned, stage_law};

//! A live channel of the built-in handlers, over memory.

ghost use Rattle.std.specs.Prelude.{◌≡◌, ◌≢◌, ◌+◌, ◌<◌, ◌++◌, ◌∷◌, [], ℕ, suc, List, false, true, Some, None, Err, IfOk, OnOk, OnErr, MatchOption, Decides, length, take, drop, min};
ghost use Rattle.pl_event.specs.declared.elements.Element.TheVariants.{Chunk};
ghost use Rattle.pl_event.specs.Inputs.{burst_events};
ghost use Rattle.pl_stages.specs.Counts.{weight};
ghost use Rattle.pl_head.specs.Writes.{out};
ghost use Rattle.pl_channel.specs.Feeding.{fed_channel};
ghost use Rattle.pl_world.specs.declared.worlds.WorldRefusal.TheVariants as world_refusal;
ghost use Rattle.pl_world.specs.Plans.{ChannelPlan};
ghost use Rattle.pl_world.specs.Reports.{head_of};
ghost use Rattle.pl_text.specs.declared.faults.SessionFault.TheVariants as session_fault;
ghost use Rattle.pl_live.specs.declared.faults.FeedFault.TheVariants as feed_fault;
ghost use Rattle.pl_live.specs.LiveStand.{IsSound, consumed_of, may_take};
ghost use Rattle.pl_live_c.specs.declared.channels.OpenFault.TheVariants as open_fault;
ghost use Rattle.pl_live_c.specs.Channels.{RestsAt, OpensAs, RecordsAs, IsNoSession, IsNotToBeFed, IsToBeFed, IsAlone, session_planned, pending};

use pl_event::{ByteString, Element, Sequence};
use pl_head::{MemoryTransport, ReadPlan};
use pl_live::{FeedFault, Live, MAX_FED};
use pl_stages::Handler;
use pl_text::{SessionFault, read_session};
use pl_world::{Recorded, Session, WorldRefusal};
use std::alloc::{AllocError, Global};

/// Why no channel was opened.
#[derive(Clone, Copy, Debug, PartialEq, Eq)]
pub(crate) enum OpenFault {
    /// An allocation failed.
    Memory,
    /// The text is no session.
    Text,
    /// The session is not one channel on one executor, without bursts and without an abort.
    Plan,
}

impl From<SessionFault> for OpenFault {
    ghost from_gives = { λ refused e. (e ≡ open_fault.Memory → refused ≡ session_fault.Memory) × (e ≡ open_fault.Text → refused ≢ session_fault.Memory) × (e ≢ open_fault.Plan) };

    fn from(refused: SessionFault) -> OpenFault {
        match refused {
            SessionFault::Memory => OpenFault::Memory,
            _ => OpenFault::Text,
        }
    }
}

impl From<WorldRefusal> for OpenFault {
    ghost from_gives = { λ refused e. (e ≡ open_fault.Plan → refused ≡ world_refusal.Limit) × (e ≢ open_fault.Text) };

    fn from(refused: WorldRefusal) -> OpenFault {
        match refused {
            WorldRefusal::Memory => OpenFault::Memory,
            WorldRefusal::Limit => OpenFault::Plan,
        }
    }
}

/// A live channel of the built-in handlers, over memory.
#[derive(Drop)]
pub struct Channel {
    pub(crate) live: Live<Handler, MemoryTransport>,
}

impl Channel {
    /// The channel of a session's text, which has become active and was fed nothing, in a box.
    ///
    /// Errors: `Text` where the text is no session; `Plan` where it is not one channel on one executor, without bursts and
    /// without an abort; `Memory`.
    #[tactic(auto, using(crate::proofs::Opened::opened))]
    pub(crate) fn open(alloc: Global, text: &[u8]) -> Result<Box<Channel>, OpenFault>
        ensures opened { IfOk result (λ channel. OpensAs text.now channel.value) }
        ensures text { result ≡ Err open_fault.Text → IsNoSession text.now }
        ensures plan { result ≡ Err open_fault.Plan → IsNotToBeFed text.now }
    {
        let Recorded {
            pipeline,
            transport,
            ..
        } = recorded_in(alloc, text)?;
        let live = Live::new(alloc, pipeline, transport)?;
        Box::new(alloc, Channel { live }).map_err(|_| OpenFault::Memory)
    }

    /// Feeds bytes, as one burst of one chunk. They are copied once. The events that reach the tail are dropped.
    ///
    /// Errors, which leave the channel as it was: those of `Live::feed`.
    pub(crate) fn feed(&mut self, alloc: Global, bytes: &[u8]) -> Result<(), FeedFault>
        ensures fed { OnOk result ((p : ChannelPlan) → RestsAt p self.old.live
            → RestsAt (fed_channel (Chunk bytes.now ∷ []) p) self.new.live) }
        ensures handed { (consumed_of self.new.live ≡ consumed_of self.old.live) × (self.new.live.ends ≡ self.old.live.ends) }
        ensures allowed { OnOk result ((self.old.live.ends ≡ false) × (may_take self.old.live ≡ true)) }
        ensures closed { result ≡ Err feed_fault.Closed → self.old.live.ends ≡ false → may_take self.old.live ≡ false }
        ensures full { result ≡ Err feed_fault.Full → self.old.live.room < weight (burst_events (Chunk bytes.now ∷ [])) }
        ensures kept { OnErr result (self.new ≡ self.old) }
    {
        let burst = burst_of(alloc, bytes)?;
        self.live.feed(burst)?;
        self.drop_events();
        Ok(())
    }

    /// Drops the events that reached the tail: C reads none.
    fn drop_events(&mut self)
        ensures rests { (p : ChannelPlan) → RestsAt p self.old.live → RestsAt p self.new.live }
        ensures handed { (consumed_of self.new.live ≡ consumed_of self.old.live) × (self.new.live.ends ≡ self.old.live.ends) }
    {
        for _ in 0..MAX_FED {
            let Some(event) = self.live.next_event() else {
                return;
            };
            drop(event);
        }
    }

    /// Copies the next bytes of the output to the front of `into`, as many as there are and there is room for, and consumes
    /// them.
    pub(crate) fn take_output(&mut self, into: &mut [u8]) -> usize
        ensures count { result ≡ min (length (pending self.old.live)) (length into.old) }
        ensures taken { into.new ≡ take result (pending self.old.live) ++ drop result into.old }
        ensures consumed { consumed_of self.new.live ≡ consumed_of self.old.live + result }
        ensures next { (p : ChannelPlan) → RestsAt p self.old.live → (rest : List ℕ) × (take (consumed_of self.old.live) (out (head_of p)) ++ pending self.old.live ++ rest ≡ out (head_of p)) }
        ensures all { (p : ChannelPlan) (w : ℕ) → RestsAt p self.old.live → IsSound self.old.live → p.window ≡ Some (suc w) → pending self.old.live ≡ [] → consumed_of self.old.live ≡ length (out (head_of p)) }
        ensures rests { (p : ChannelPlan) → RestsAt p self.old.live
            → RestsAt p self.new.live }
    {
        let pending = self.live.pending_output();
        let count = pending.len().min(into.len());
        into[..count].copy_from_slice(&pending[..count]);
        if count > 0 {
            self.live.consume(count);
        }
        count
    }
}

/// A burst of one chunk, which has a copy of these bytes.
fn burst_of(alloc: Global, bytes: &[u8]) -> Result<Sequence<Element>, AllocError>
    ensures { IfOk result (λ burst. burst ≡ Chunk bytes.now ∷ []) }
{
    let chunk = ByteString::from_slice(alloc, bytes)?;
    let mut burst = Sequence::new(alloc);
    burst.push(Element::Chunk(chunk))?;
    Ok(burst)
}

/// The one channel that a session's text records, to be fed.
fn recorded_in(alloc: Global, text: &[u8]) -> Result<Recorded<Handler, MemoryTransport>, OpenFault>
    ensures records { IfOk result (λ recorded. RecordsAs text.now recorded) }
    ensures text { result ≡ Err open_fault.Text → IsNoSession text.now }
    ensures plan { result ≡ Err open_fault.Plan → IsNotToBeFed text.now }
{
    let Ok(text) = str::from_utf8(text) else {
        return Err(OpenFault::Text);
    };
    let session = read_session(alloc, text)?;
    match alone_in(session) {
        Some(recorded) => Ok(recorded),
        None => Err(OpenFault::Plan),
    }
}

/// The one channel of a session, to be fed. None where the session is not one channel on one executor, without bursts and
/// without an abort.
fn alone_in(session: Session) -> Option<Recorded<Handler, MemoryTransport>>
    ensures { MatchOption result ((p : ChannelPlan) → IsToBeFed (session_planned session) p → ⊥) (λ recorded. IsAlone session recorded) }
{
    let Session { world, .. } = session;
    if world.executors() != 1 {
        return None;
    }
    let mut channels = world.into_channels().into_vec();
    let recorded = channels.pop()?;
    if channels.is_empty() && is_to_be_fed(&recorded.input) {
        Some(recorded)
    } else {
        None
    }
}

/// Whether nothing is recorded, and no abort.
fn is_to_be_fed(input: &ReadPlan) -> bool
    ensures { Decides result ((input.now.bursts ≡ []) × (input.now.abort_after ≡ None)) }
{
    input.bursts.is_empty() && input.abort_after.is_none()
}

//! The C face of a live channel: what `pl_live.h` declares.
//!
//! C holds a channel by a `struct pl_live`, which it zeroes before it is first used. Each call finds a channel in it, or none.
//! What a C caller owes is told in this crate's README; nothing checks it.
#![tactic(auto)]

ghost use Rattle.std.specs.Prelude.{◌≡◌, ◌⊎◌, ℕ, suc, ◌+◌, ◌<◌, List, ◌++◌, ◌∷◌, [], true, false, Some, None, is_some, length, take, drop, min};
ghost use Rattle.pl_event.specs.declared.elements.Element.TheVariants.{Chunk};
ghost use Rattle.pl_event.specs.Inputs.{burst_events};
ghost use Rattle.pl_stages.specs.Counts.{weight};
ghost use Rattle.pl_head.specs.Transports.{memory_state};
ghost use Rattle.pl_head.specs.Writes.{out};
ghost use Rattle.pl_channel.specs.Feeding.{fed_channel};
ghost use Rattle.pl_world.specs.Plans.{ChannelPlan};
ghost use Rattle.pl_world.specs.Reports.{head_of};
ghost use Rattle.pl_live.specs.LiveStand.{IsSound, consumed_of, live_cause, may_take, accepted_in, parts_of};
ghost use Rattle.pl_live.specs.declared.faults.FeedFault.{FeedFault};
ghost use Rattle.pl_live_c.specs.declared.channels.Channel.{Channel};
ghost use Rattle.pl_live_c.specs.declared.channels.OpenFault.{OpenFault};
ghost use Rattle.pl_live_c.specs.Answers.{open_answer, feed_answer};
ghost use Rattle.pl_live_c.specs.Channels.{RestsAt, OpensAs, IsNoSession, IsNotToBeFed, TellsDone, TellsWanted, pending};

mod answers;
mod box_parts;
mod channels;
mod held;

pub use answers::{CLOSED, FULL, MEMORY, NONE, OK, PLAN, TEXT};
use answers::{answer_of_feed, answer_of_open};
use channels::Channel;
pub use held::Held;
use std::alloc::Global;

/// Opens the channel of a session text, with the handlers that its edits make, and its marks, window and failing call. It is
/// active and was fed nothing. It takes the place of a channel that was held, which is freed.
///
/// Answers: `OK`; `TEXT` where the text is no session; `PLAN` where its session is not one channel on one executor, without
/// bursts and without an abort; `MEMORY`. Unless it is `OK`, what was held is held still.
#[unsafe(no_mangle)]
pub extern "C" fn pl_live_open(alloc: Global, held: &mut Held, text: &[u8]) -> u32
    ensures answers { (result ≡ OK) ⊎ ((fault : OpenFault) × (result ≡ open_answer fault)) }
    ensures opened { result ≡ OK → (c : Channel) × (held.new.channel ≡ Some c) × OpensAs text.now c }
    ensures text { result ≡ TEXT → IsNoSession text.now }
    ensures plan { result ≡ PLAN → IsNotToBeFed text.now }
    ensures kept { (result ≡ OK → ⊥) → held.new ≡ held.old }
{
    match Channel::open(alloc, text) {
        Ok(channel) => {
            *held = Held::of(channel);
            OK
        }
        Err(fault) => answer_of_open(fault),
    }
}

/// Feeds bytes that came in, as one burst of one chunk. It is read, and what comes of it is made.
///
/// Answers: `OK`; `CLOSED` after the end, where a handler has quit, and where something has failed; `FULL` where more would
/// have been fed than a channel may ever be; `MEMORY`; `NONE` where no channel is held. Unless it is `OK`, the channel is as it
/// was.
#[unsafe(no_mangle)]
pub extern "C" fn pl_live_feed(alloc: Global, held: &mut Held, bytes: &[u8]) -> u32
    ensures held { is_some held.new.channel ≡ is_some held.old.channel }
    ensures fed { result ≡ OK → (c d : Channel) → held.old.channel ≡ Some c → held.new.channel ≡ Some d → (p : ChannelPlan) → RestsAt p c.live → RestsAt (fed_channel (Chunk bytes.now ∷ []) p) d.live }
    ensures handed { (c d : Channel) → held.old.channel ≡ Some c → held.new.channel ≡ Some d → (consumed_of d.live ≡ consumed_of c.live) × (d.live.ends ≡ c.live.ends) }
    ensures kept { (result ≡ OK → ⊥) → held.new.channel ≡ held.old.channel }
    ensures allowed { result ≡ OK → (c : Channel) → held.old.channel ≡ Some c → (c.live.ends ≡ false) × (may_take c.live ≡ true) }
    ensures closed { result ≡ CLOSED → (c : Channel) → held.old.channel ≡ Some c → c.live.ends ≡ false → may_take c.live ≡ false }
    ensures full { result ≡ FULL → (c : Channel) → held.old.channel ≡ Some c → c.live.room < weight (burst_events (Chunk bytes.now ∷ [])) }
    ensures none { held.old.channel ≡ None → result ≡ NONE }
    ensures answers { is_some held.old.channel ≡ true → (result ≡ OK) ⊎ ((fault : FeedFault) × (result ≡ feed_answer fault)) }
{
    let Some(mut channel) = held.take(alloc) else {
        return NONE;
    };
    match channel.feed(alloc, bytes) {
        Ok(()) => {
            *held = Held::of(channel);
            OK
        }
        Err(fault) => {
            *held = Held::of(channel);
            answer_of_feed(fault)
        }
    }
}

/// Says that no bytes come any more. Said once more it changes nothing.
///
/// False: no channel is held.
#[unsafe(no_mangle)]
pub extern "C" fn pl_live_end(alloc: Global, held: &mut Held) -> bool
    ensures held { is_some held.new.channel ≡ is_some held.old.channel }
    ensures rests { (c d : Channel) → held.old.channel ≡ Some c → held.new.channel ≡ Some d → (p : ChannelPlan) → RestsAt p c.live → RestsAt p d.live }
    ensures ends { (d : Channel) → held.new.channel ≡ Some d → d.live.ends ≡ true }
    ensures said { result ≡ is_some held.old.channel }
{
    let Some(mut channel) = held.take(alloc) else {
        return false;
    };
    channel.live.end();
    *held = Held::of(channel);
    true
}

/// Aborts the channel: its handlers are told, and nothing more is read or sent; what it accepted before may still be taken.
/// Where something had failed already, it changes nothing.
///
/// False: no channel is held.
#[unsafe(no_mangle)]
pub extern "C" fn pl_live_abort(alloc: Global, held: &mut Held) -> bool
    ensures held { is_some held.new.channel ≡ is_some held.old.channel }
    ensures rests { (c d : Channel) → held.old.channel ≡ Some c → held.new.channel ≡ Some d → (p : ChannelPlan) → RestsAt p c.live → RestsAt p d.live }
    ensures closed { (d : Channel) → held.new.channel ≡ Some d → may_take d.live ≡ false }
    ensures said { result ≡ is_some held.old.channel }
{
    let Some(mut channel) = held.take(alloc) else {
        return false;
    };
    channel.live.abort();
    *held = Held::of(channel);
    true
}

/// Copies the next bytes that are to be sent to the front of `into`, as many as there are and there is room for, and says how
/// many these are. They count as sent from then on: no later call gives them.
///
/// 0: nothing is to be sent now, there is no room, or no channel is held.
#[unsafe(no_mangle)]
pub extern "C" fn pl_live_take_output(alloc: Global, held: &mut Held, into: &mut [u8]) -> usize
    ensures held { is_some held.new.channel ≡ is_some held.old.channel }
    ensures count { (c : Channel) → held.old.channel ≡ Some c → result ≡ min (length (pending c.live)) (length into.old) }
    ensures taken { (c : Channel) → held.old.channel ≡ Some c → into.new ≡ take result (pending c.live) ++ drop result into.old }
    // They are what comes next of what the handlers write of all that was fed.
    ensures next { (c : Channel) → held.old.channel ≡ Some c → (p : ChannelPlan) → RestsAt p c.live → (rest : List ℕ) × (take (consumed_of c.live) (out (head_of p)) ++ pending c.live ++ rest ≡ out (head_of p)) }
    // And where there are none, nothing that is due stays inside.
    ensures all { result ≡ 0 → 0 < length into.old → (c : Channel) → held.old.channel ≡ Some c → (p : ChannelPlan) (w : ℕ) → RestsAt p c.live → IsSound c.live → p.window ≡ Some (suc w)
        → consumed_of c.live ≡ length (out (head_of p)) }
    ensures consumed { (c d : Channel) → held.old.channel ≡ Some c → held.new.channel ≡ Some d → consumed_of d.live ≡ consumed_of c.live + result }
    ensures rests { (c d : Channel) → held.old.channel ≡ Some c → held.new.channel ≡ Some d → (p : ChannelPlan) → RestsAt p c.live → RestsAt p d.live }
    ensures none { held.old.channel ≡ None → (result ≡ 0) × (into.new ≡ into.old) }
{
    let Some(mut channel) = held.take(alloc) else {
        return 0;
    };
    let count = channel.take_output(into);
    *held = Held::of(channel);
    count
}

/// Whether bytes are wanted: some may come, none that were fed are left to be read, and they would not be held, since the channel
/// is writable or no flushed byte waits. Who feeds it only then holds in it at most what the high mark allows, what one call
/// brings, what no handler has flushed, and the 65,536 bytes and one message that may be accepted and not taken.
///
/// False also where no channel is held.
#[unsafe(no_mangle)]
pub extern "C" fn pl_live_wants_input(alloc: Global, held: &mut Held) -> bool
    ensures kept { held.new.channel ≡ held.old.channel }
    ensures wants { (c : Channel) → held.old.channel ≡ Some c → TellsWanted c.live result }
    // They are, as long as some may come, where nothing has failed and all output was taken.
    ensures wanted { (c : Channel) → held.old.channel ≡ Some c → (p : ChannelPlan) (w : ℕ) → RestsAt p c.live → IsSound c.live → p.window ≡ Some (suc w) → c.live.ends ≡ false → may_take c.live ≡ true
        → c.live.consumed ≡ length (accepted_in memory_state (parts_of c.live)) → result ≡ true }
    ensures none { held.old.channel ≡ None → result ≡ false }
{
    let Some(channel) = held.take(alloc) else {
        return false;
    };
    let wants_input = channel.live.wants_input();
    *held = Held::of(channel);
    wants_input
}

/// Whether the channel is over: its tail and its head have taken an end or a failure, and no flushed byte waits to be
/// offered. What `pl_live_take_output` still gives is the last of it.
///
/// False also where no channel is held.
#[unsafe(no_mangle)]
pub extern "C" fn pl_live_is_done(alloc: Global, held: &mut Held) -> bool
    ensures kept { held.new.channel ≡ held.old.channel }
    ensures over { (c : Channel) → held.old.channel ≡ Some c → TellsDone c.live result }
    // It is where the end was said, nothing has failed and all output was taken.
    ensures done { (c : Channel) → held.old.channel ≡ Some c → (p : ChannelPlan) (w : ℕ) → RestsAt p c.live → IsSound c.live → p.window ≡ Some (suc w) → c.live.ends ≡ true
        → c.live.consumed ≡ length (accepted_in memory_state (parts_of c.live)) → result ≡ true }
    ensures none { held.old.channel ≡ None → result ≡ false }
{
    let Some(channel) = held.take(alloc) else {
        return false;
    };
    let is_done = channel.live.is_done();
    *held = Held::of(channel);
    is_done
}

/// Whether something has failed: a handler, the transport, or a growth that was refused. Nothing more comes of the channel
/// then, but for what was accepted before.
///
/// False also where no channel is held.
#[unsafe(no_mangle)]
pub extern "C" fn pl_live_has_failed(alloc: Global, held: &mut Held) -> bool
    ensures kept { held.new.channel ≡ held.old.channel }
    ensures failed { (c : Channel) → held.old.channel ≡ Some c → result ≡ is_some (live_cause c.live) }
    ensures sound { result ≡ false → (c : Channel) → held.old.channel ≡ Some c → IsSound c.live }
    ensures none { held.old.channel ≡ None → result ≡ false }
{
    let Some(channel) = held.take(alloc) else {
        return false;
    };
    let has_failed = channel.live.cause().is_some();
    *held = Held::of(channel);
    has_failed
}

/// Frees the channel that is held, if one is. None is held then, and another may be opened.
#[unsafe(no_mangle)]
pub extern "C" fn pl_live_close(alloc: Global, held: &mut Held)
    ensures { held.new.channel ≡ None }
{
    *held = Held::none(alloc);
}

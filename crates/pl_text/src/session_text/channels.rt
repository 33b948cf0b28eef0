//! Reads the members of a channel.

ghost use Rattle.std.specs.Prelude.{◌≡◌, ◌≤◌, length, IfOk};
ghost use Rattle.serde_json.specs.View.{view};
ghost use Rattle.pl_world.specs.declared.limits.TheConstants.{MAX_BURSTS};
ghost use Rattle.pl_text.specs.SessionReading.{AnswersMeaning};
ghost use Rattle.pl_text.specs.SessionChannels.{mark_in, window_in, fail_at_in, bursts_in, abort_after_in, channel_in};

use crate::faults::SessionFault;
use crate::session_text::limits::{DEFAULT_WINDOW, MAX_EDITS, MAX_FAIL_AT, MAX_WINDOW};
use crate::session_text::outline::{ChannelOutline, Edit};
use crate::session_text::values::{FromData, an_object, array_in, present, taken, whole_in};
use crate::session_text::version::Version;
use pl_build::{DEFAULT_HIGH, DEFAULT_LOW, MAX_MARK};
use pl_event::{Element, Sequence};
use pl_world::{MAX_BURSTS, fits};
use serde_json::Value;
use std::alloc::Global;

impl FromData for ChannelOutline {
    type Read = ChannelOutline;

    ghost meaning = { channel_in };

    #[tactic(auto, using(crate::proofs::SessionMembers::get_except), unfolding(crate::specs::SessionChannels::channel_in, crate::specs::SessionChannels::mark_in, crate::specs::SessionChannels::window_in, crate::specs::SessionChannels::fail_at_in, crate::specs::SessionChannels::abort_after_in, crate::specs::SessionReading::present))]
    fn from_data(
        alloc: Global,
        version: Version,
        value: Value,
    ) -> Result<ChannelOutline, SessionFault> {
        let mut channel = an_object(value)?;
        let edits = taken(&mut channel, "handlers").ok_or(SessionFault::Missing)?;
        let edits = array_in::<Edit>(alloc, version, MAX_EDITS, edits)?;
        let low = mark_in("low", DEFAULT_LOW, &channel)?;
        let high = mark_in("high", DEFAULT_HIGH, &channel)?;
        let window = window_in(&channel)?;
        let fail_at = fail_at_in(&channel)?;
        let bursts = taken(&mut channel, "bursts").ok_or(SessionFault::Missing)?;
        let bursts = bursts_in(alloc, version, bursts)?;
        let abort_after = abort_after_in(bursts.len(), &channel)?;
        Ok(ChannelOutline {
            edits,
            low,
            high,
            window,
            fail_at,
            bursts,
            abort_after,
        })
    }
}

/// A mark of a channel, in bytes.
#[tactic(auto, unfolding(crate::specs::SessionChannels::mark_in))]
fn mark_in(name: &str, default: u32, channel: &Value) -> Result<u32, SessionFault>
    ensures { result ≡ mark_in name.now default (view channel.now) }
{
    match present(channel, name) {
        Some(value) => Ok(whole_in(0, u64::from(MAX_MARK), value)? as u32),
        None => Ok(default),
    }
}

/// How many bytes the transport of a channel accepts in one call.
#[tactic(auto, unfolding(crate::specs::SessionChannels::window_in))]
fn window_in(channel: &Value) -> Result<u32, SessionFault>
    ensures { result ≡ window_in (view channel.now) }
{
    match present(channel, "window") {
        Some(value) => Ok(whole_in(1, u64::from(MAX_WINDOW), value)? as u32),
        None => Ok(DEFAULT_WINDOW),
    }
}

/// The call of a channel's transport that fails, if one does.
#[tactic(auto, unfolding(crate::specs::SessionChannels::fail_at_in))]
fn fail_at_in(channel: &Value) -> Result<Option<u32>, SessionFault>
    ensures { result ≡ fail_at_in (view channel.now) }
{
    match present(channel, "fail_at") {
        Some(value) => Ok(Some(whole_in(1, u64::from(MAX_FAIL_AT), value)? as u32)),
        None => Ok(None),
    }
}

/// After how many of its bursts a channel is aborted, if it is.
#[tactic(auto, unfolding(crate::specs::SessionChannels::abort_after_in))]
fn abort_after_in(count: usize, channel: &Value) -> Result<Option<u32>, SessionFault>
    requires { count ≤ MAX_BURSTS }
    ensures { result ≡ abort_after_in count (view channel.now) }
{
    match present(channel, "abort_after") {
        Some(value) => Ok(Some(whole_in(0, count as u64, value)? as u32)),
        None => Ok(None),
    }
}

/// The bursts of a channel. The number of bursts is looked at first, their elements and bytes after all are read.
#[tactic(auto, unfolding(crate::specs::SessionChannels::bursts_in))]
fn bursts_in(
    alloc: Global,
    version: Version,
    value: Value,
) -> Result<Sequence<Sequence<Element>>, SessionFault>
    ensures meaning { AnswersMeaning result (bursts_in version (view value)) }
    ensures few { IfOk result (λ bursts. length bursts ≤ MAX_BURSTS) }
{
    let bursts = array_in::<Sequence<Element>>(alloc, version, MAX_BURSTS, value)?;
    if !fits(bursts.as_slice()) {
        return Err(SessionFault::Limit);
    }
    Ok(bursts)
}

//! Live channels beside `plain`: what is handed out is what that makes of all that was fed.

use crate::tests::cutting::{
    Burst, CUTTINGS, Cutting, copy_of, cut, first_of, next_number, random_bursts,
};
use crate::tests::sessions::{
    Channel, ENCODER_BEHIND, FRAMES, FRAMES_SERVED, LINES, LOW_MARKS, SECOND_FLUSH, SERVED, Sample,
    channel_of, plain_of, recorded, text_of,
};
use pl_event::{Command, Element, Event, Message};
use pl_live::FeedFault;
use pl_world::ChannelReport;
use std::alloc::Global;
use std::process::Abort;
use std::test::Fail;

/// Whether an event is that a client quits.
fn is_quit(event: &Event) -> bool {
    match event {
        Event::Read(Message::Command(command)) => matches!(command, Command::Quit),
        _ => false,
    }
}

/// Whether a client has quit, by the events that were handed out last.
fn has_quit(events: &[Event]) -> bool {
    match events.last() {
        Some(event) => is_quit(event),
        None => false,
    }
}

/// Feeds a copy of a burst, which is refused exactly where a client has quit.
fn feed_copy(
    rt: &impl Abort,
    fed: &mut Channel,
    burst: &[Element],
    is_closed: bool,
) -> Result<(), Fail> {
    let want = if is_closed {
        Err(FeedFault::Closed)
    } else {
        Ok(())
    };
    let copy = copy_of(fed.alloc, burst)?;
    assert_eq!(rt; fed.live.feed(copy), want);
    Ok(())
}

/// Asserts that what was handed out is all that `plain` makes.
fn assert_whole(rt: &impl Abort, fed: &Channel, whole: &ChannelReport, text: &str) {
    let is_tail = fed.events.as_slice() == whole.tail.as_slice();
    assert!(rt; is_tail, "{text}");
    assert!(rt; fed.bytes.as_slice() == whole.bytes.as_slice(), "{text}");
}

/// Asserts that a channel whose end is said is over, and has handed out all.
fn assert_over(
    rt: &impl Abort,
    fed: &mut Channel,
    whole: &ChannelReport,
    text: &str,
) -> Result<(), Fail> {
    fed.live.end();
    fed.take_all()?;
    assert_whole(rt, fed, whole, text);
    assert!(rt; fed.live.is_done() && fed.live.cause().is_none(), "{text}");
    Ok(())
}

/// Asserts that a channel that is fed these bursts, and all of whose output is taken each time, hands out behind each burst
/// what `plain` makes of those so far, and nothing more for the end.
fn assert_like_plain(
    rt: &impl Abort,
    alloc: Global,
    text: &str,
    bursts: &[Burst],
) -> Result<(), Fail> {
    let mut fed = channel_of(alloc, text, 3, None)?;
    for (place, burst) in bursts.iter().enumerate() {
        let is_closed = has_quit(fed.events.as_slice());
        feed_copy(rt, &mut fed, burst.as_slice(), is_closed)?;
        fed.take_all()?;
        let so_far = first_of(alloc, bursts, place.saturating_add(1))?;
        assert_whole(rt, &fed, &plain_of(alloc, text, so_far)?, text);
    }
    let whole = plain_of(alloc, text, first_of(alloc, bursts, bursts.len())?)?;
    assert_over(rt, &mut fed, &whole, text)
}

/// Asserts that what was handed out begins what `plain` makes.
fn assert_begins(rt: &impl Abort, fed: &Channel, whole: &ChannelReport, text: &str) {
    let (tail, bytes) = (whole.tail.as_slice(), whole.bytes.as_slice());
    assert!(rt; tail.starts_with(fed.events.as_slice()), "{text}");
    assert!(rt; bytes.starts_with(fed.bytes.as_slice()), "{text}");
}

/// Asserts the same of a channel of whose output and events some are taken by chance behind each burst: what was handed out
/// begins what `plain` makes of the bursts so far, and is all of it at the end.
fn assert_keeps_to_plain(
    rt: &impl Abort,
    alloc: Global,
    text: &str,
    bursts: &[Burst],
    seed: u64,
) -> Result<(), Fail> {
    let mut fed = channel_of(alloc, text, 3, None)?;
    let mut number = seed;
    for (place, burst) in bursts.iter().enumerate() {
        let answer = fed.live.feed(copy_of(alloc, burst.as_slice())?);
        assert!(rt; answer == Ok(()) || answer == Err(FeedFault::Closed));
        number = next_number(number);
        fed.take_output(((number >> 33) % 12) as usize)?;
        fed.take_events((number >> 40) % 4)?;
        let so_far = first_of(alloc, bursts, place.saturating_add(1))?;
        assert_begins(rt, &fed, &plain_of(alloc, text, so_far)?, text);
    }
    let whole = plain_of(alloc, text, first_of(alloc, bursts, bursts.len())?)?;
    assert_over(rt, &mut fed, &whole, text)
}

/// Pipelines of whose lines some come by chance: with default marks, with marks that each answer passes, and where each second
/// flush passes.
const PIPELINES: [Sample; 3] = [
    (1, LINES, SERVED, "", "[]"),
    (1, LINES, SERVED, LOW_MARKS, "[]"),
    (1, SECOND_FLUSH, SERVED, LOW_MARKS, "[]"),
];

/// The same bursts by chance, taken at once and by chance.
fn assert_random(rt: &impl Abort, alloc: Global, text: &str, seed: u64) -> Result<(), Fail> {
    let bursts = random_bursts(alloc, seed, 20)?;
    assert_like_plain(rt, alloc, text, bursts.as_slice())?;
    assert_keeps_to_plain(rt, alloc, text, bursts.as_slice(), seed)
}

#[test]
fn live_equals_plain(rt: HostRuntime) -> Result<(), Fail> {
    for sample in &PIPELINES {
        let text = text_of(rt.alloc(), *sample)?;
        for seed in 1..33 {
            assert_random(&rt, rt.alloc(), text.as_str(), seed)?;
        }
    }
    Ok(())
}

/// Lines of at most four bytes, and of at most three.
const LINES_OF_4: &str = r#"{"op":"last","name":"lines","kind":"lines","max":4}"#;

const LINES_OF_3: &str = r#"{"op":"last","name":"lines","kind":"lines","max":3}"#;

/// Frames of at most five bytes.
const FRAMES_OF_5: &str = r#"{"op":"last","name":"length","kind":"length","width":2,"max":5}"#;

/// The line protocol by each kind of edit.
const LAST_SERVICE: &str = r#"{"op":"last","name":"service","kind":"service"}"#;

const IN_ANY_ORDER: &str = r#"{"op":"first","name":"spare","kind":"encode"},
{"op":"before","at":"service","name":"encode","kind":"encode"},
{"op":"before","at":"encode","name":"lineend","kind":"lineend"},
{"op":"first","name":"lines","kind":"lines","max":64},
{"op":"after","at":"lines","name":"decode","kind":"decode"},
{"op":"remove","name":"spare"}"#;

/// Each example of one channel without groups, but for how its transport fails and when it is aborted.
const EXAMPLES: [Sample; 26] = [
    (1, LINES, SERVED, "", "[]"),
    (1, LINES, SERVED, "", r#"[["PING\r\n"]]"#),
    (1, LINES, SERVED, "", r#"[["PING\n"]]"#),
    (1, LINES, SERVED, "", r#"[["PI"],["NG\n"]]"#),
    (1, LINES_OF_4, SERVED, "", r#"[["PING\r","\n"]]"#),
    (1, LINES_OF_3, SERVED, "", r#"[["PING\n"]]"#),
    (1, LINES, SERVED, "", r#"[["ECHO \nECHO\n\n"]]"#),
    (1, LINES, SERVED, "", r#"[["ECHO a\r\r\n"]]"#),
    (
        1,
        LINES,
        SERVED,
        "",
        r#"[["ADD a 7\nADD b 1\nADD a 5\nGET a\n"]]"#,
    ),
    (1, LINES, SERVED, "", r#"[["ADD a 0123\n"]]"#),
    (
        1,
        LINES,
        SERVED,
        "",
        r#"[["ADD a 999999999\nADD a 1234567890\nGET zz\n"]]"#,
    ),
    (1, LINES, SERVED, "", r#"[["PING\nQUIT\nPING\nPI"]]"#),
    (
        1,
        LINES,
        SERVED,
        r#","low":4,"high":8,"window":3"#,
        r#"[["PING\nPING\n"]]"#,
    ),
    (1, LINES, SERVED, LOW_MARKS, r#"[["PING\n"],["PING\n"]]"#),
    (
        1,
        SECOND_FLUSH,
        SERVED,
        LOW_MARKS,
        r#"[["PING\n"],["PING\n"]]"#,
    ),
    (1, SECOND_FLUSH, SERVED, "", r#"[["PING\n"]]"#),
    (1, LINES, ENCODER_BEHIND, "", r#"[["PING\n"]]"#),
    (1, LAST_SERVICE, IN_ANY_ORDER, "", r#"[["PING\n"]]"#),
    (
        2,
        LINES,
        SERVED,
        "",
        r#"[["50494e470a",{"user":7},"50494e470a"]]"#,
    ),
    (2, LINES, SERVED, "", r#"[["5049",{"user":7},"4e470a"]]"#),
    (2, LINES, SERVED, "", r#"[["515549540a",{"user":7}]]"#),
    (2, FRAMES, FRAMES_SERVED, "", r#"[["00","0450","494E47"]]"#),
    (
        2,
        FRAMES,
        FRAMES_SERVED,
        "",
        r#"[["000450",{"user":7},"494e47"]]"#,
    ),
    (2, FRAMES, FRAMES_SERVED, "", r#"[["0000"],["000550"]]"#),
    (2, FRAMES_OF_5, FRAMES_SERVED, "", r#"[["000450494e47"]]"#),
    (
        2,
        FRAMES_OF_5,
        FRAMES_SERVED,
        "",
        r#"[["0004"],["50494e47"]]"#,
    ),
];

/// The bursts of a session, so cut, are answered as `plain` does.
fn assert_cut(rt: &impl Abort, alloc: Global, text: &str, cutting: Cutting) -> Result<(), Fail> {
    let recorded = recorded(alloc, text)?;
    let bursts = cut(alloc, recorded.input.bursts.as_slice(), cutting)?;
    assert_like_plain(rt, alloc, text, bursts.as_slice())
}

/// Each example's input, in three cuttings.
#[test]
fn every_example_equals_plain(rt: HostRuntime) -> Result<(), Fail> {
    for sample in &EXAMPLES {
        let text = text_of(rt.alloc(), *sample)?;
        for &cutting in &CUTTINGS {
            assert_cut(&rt, rt.alloc(), text.as_str(), cutting)?;
        }
    }
    Ok(())
}

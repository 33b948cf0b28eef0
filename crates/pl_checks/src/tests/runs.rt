//! Sessions that are run, over each queue: no channel is left open, what each channel's tail and transport got begins what
//! `plain` gives, and is all of it where the channel is drained.

use crate::tests::fair::{begins, whole};
use crate::tests::running::Runtime;
use crate::tests::sessions::{LINE_ACROSS_BURSTS, LineSession, PING, QUIT, failing_session};
use crate::tests::{running, sessions};
use pl_event::Cause;
use pl_exec::{Gate, QueueKind, run};
use pl_text::read_session;
use pl_world::{Report, Stands};
use std::process::Abort;
use std::test::Fail;

/// A gate that does nothing.
#[derive(Drop)]
struct NoGate;

impl Gate for NoGate {
    fn enter(&self, _executor: u16, _turn: u64) {}
}

const QUEUES: [QueueKind; 2] = [QueueKind::Waiting, QueueKind::Ring];

/// What a run of the session of a text reports.
fn reported(rt: &impl Runtime, text: &str, queue: QueueKind) -> Result<Report, Fail> {
    let session = read_session(rt.alloc(), text)?;
    Ok(run(rt, rt.alloc(), session, queue, &NoGate)?)
}

/// Each channel has ended, and begins its whole report.
fn assert_ended(rt: &impl Abort, report: &Report, whole: &Report, queue: QueueKind, text: &str) {
    let (parts, wholes) = (report.channels.as_slice(), whole.channels.as_slice());
    assert_eq!(rt; parts.len(), wholes.len());
    for (part, whole) in parts.iter().zip(wholes) {
        let has_ended = part.stands != Stands::Open;
        assert!(rt;
            has_ended && begins(part, whole),
            "{queue:?}: {part:?} of {text}"
        );
    }
}

/// What a run of the session of a text reports. It is looked at whether its channels have ended as they should.
fn ended<R: Abort + Runtime>(rt: &R, text: &str, queue: QueueKind) -> Result<Report, Fail> {
    let whole = whole(rt.alloc(), text)?;
    let report = reported(rt, text, queue)?;
    assert_ended(rt, &report, &whole, queue, text);
    Ok(report)
}

/// Each channel of a report stands so.
fn assert_stands(rt: &impl Abort, report: &Report, stands: Stands, queue: QueueKind, text: &str) {
    for channel in report.channels.as_slice() {
        assert_eq!(rt; channel.stands, stands, "{queue:?}: {text}");
    }
}

/// Says that each channel of a session stands so after a run.
fn stands_after<R: Abort + Runtime>(
    rt: &R,
    text: &str,
    queue: QueueKind,
    stands: Stands,
) -> Result<(), Fail> {
    let report = ended(rt, text, queue)?;
    assert_stands(rt, &report, stands, queue, text);
    Ok(())
}

/// Says that each channel of a session is drained by a run.
fn drains<R: Abort + Runtime>(rt: &R, text: &str, queue: QueueKind) -> Result<(), Fail> {
    stands_after(rt, text, queue, Stands::Drained)
}

/// Says that each channel of a session is drained over either queue, where a waiting one has room.
fn drains_over_each<R: Abort + Runtime>(rt: &R, text: &str) -> Result<(), Fail> {
    drains(rt, text, QueueKind::Ring)?;
    let roomy = sessions::with_room(rt, text)?;
    drains(rt, roomy.as_str(), QueueKind::Waiting)
}

#[test]
fn runs_drain_every_example(rt: HostRuntime) -> Result<(), Fail> {
    let texts = sessions::examples(&rt)?;
    for text in texts.as_slice() {
        drains_over_each(&rt, text.as_str())?;
    }
    Ok(())
}

/// Three channels, of which one has its handlers on another executor than the other two.
#[test]
fn group_placing(rt: HostRuntime) -> Result<(), Fail> {
    let text = sessions::with_room(&rt, sessions::group_placing(&rt)?.as_str())?;
    for queue in QUEUES {
        drains(&rt, text.as_str(), queue)?;
    }
    Ok(())
}

/// Says that additions over queues of so many items are reported as on one executor, a hundred times in a row.
fn adds_up(rt: &impl Runtime, capacity: u16, queue: &str) -> Result<(), Fail> {
    let text = sessions::totals_across_groups(rt, capacity, "")?;
    for _ in 0..100 {
        running::runs(rt, text.as_str(), queue, 0, sessions::TOTALS_REPORT)?;
    }
    Ok(())
}

/// The decoder and the service, each on an executor of its own: every item goes there and back, through a ring of one too.
#[test]
fn totals_across_groups(rt: HostRuntime) -> Result<(), Fail> {
    adds_up(&rt, 1, "ring")?;
    adds_up(&rt, 16, "ring")
}

#[test]
fn totals_across_groups_waiting(rt: HostRuntime) -> Result<(), Fail> {
    adds_up(&rt, 16, "waiting")
}

/// Says that the one channel of a session with these further members has this failure, whichever the queue.
fn fails<R: Abort + Runtime>(
    rt: &R,
    session: LineSession,
    members: &str,
    stands: Stands,
) -> Result<(), Fail> {
    let text = failing_session(rt, session, members)?;
    for queue in QUEUES {
        stands_after(rt, text.as_str(), queue, stands)?;
    }
    Ok(())
}

#[test]
fn transport_fault(rt: HostRuntime) -> Result<(), Fail> {
    let members = r#","window":4,"fail_at":2"#;
    fails(&rt, PING, members, Stands::Failed(Cause::Transport))
}

/// Two replies are four calls: the fifth never comes.
#[test]
fn fault_at_each_call(rt: HostRuntime) -> Result<(), Fail> {
    for (call, stands) in [
        (1, Stands::Failed(Cause::Transport)),
        (2, Stands::Failed(Cause::Transport)),
        (3, Stands::Failed(Cause::Transport)),
        (4, Stands::Failed(Cause::Transport)),
        (5, Stands::Drained),
    ] {
        let members = format!(in rt.alloc(); ",\"window\":4,\"fail_at\":{call}")?;
        fails(&rt, QUIT, members.as_str(), stands)?;
    }
    Ok(())
}

#[test]
fn abort(rt: HostRuntime) -> Result<(), Fail> {
    let aborted = Stands::Failed(Cause::Aborted);
    fails(&rt, PING, r#","abort_after":1"#, aborted)?;
    for count in 0..3 {
        let members = format!(in rt.alloc(); ",\"abort_after\":{count}")?;
        fails(&rt, LINE_ACROSS_BURSTS, members.as_str(), aborted)?;
    }
    Ok(())
}

/// Says that a session whose transport fails at this call ends, whichever the queue.
fn ends_across_groups<R: Abort + Runtime>(rt: &R, call: u8, rest: &str) -> Result<(), Fail> {
    let members = format!(in rt.alloc(); ",\"window\":3,\"fail_at\":{call}{rest}")?;
    let text = sessions::totals_across_groups(rt, 1, members.as_str())?;
    for queue in QUEUES {
        ended(rt, text.as_str(), queue)?;
    }
    Ok(())
}

/// Whichever of the two failures is the first, and at whichever call: it goes from executor to executor, past items that
/// wait for room.
#[test]
fn failures_across_groups(rt: HostRuntime) -> Result<(), Fail> {
    for call in 1..9 {
        for rest in ["", r#","abort_after":0"#, r#","abort_after":1"#] {
            ends_across_groups(&rt, call, rest)?;
        }
    }
    Ok(())
}

/// As many channels and executors as there may be, each handler in a group of 16.
#[test]
fn sixty_four_across_groups(rt: HostRuntime) -> Result<(), Fail> {
    let text = sessions::sixty_four_across_groups(&rt, "", "")?;
    drains_over_each(&rt, text.as_str())
}

/// The same, where every other channel is aborted or has a transport that fails: these fail, and the others are drained.
#[test]
fn sixty_four_of_which_some_fail(rt: HostRuntime) -> Result<(), Fail> {
    let text = sessions::sixty_four_across_groups(&rt, r#","abort_after":0"#, r#","fail_at":1"#)?;
    let roomy = sessions::with_room(&rt, text.as_str())?;
    for (queue, text) in [(QueueKind::Ring, text), (QueueKind::Waiting, roomy)] {
        let report = ended(&rt, text.as_str(), queue)?;
        for (number, channel) in report.channels.as_slice().iter().enumerate() {
            let stands = match number % 4 {
                1 => Stands::Failed(Cause::Aborted),
                3 => Stands::Failed(Cause::Transport),
                _ => Stands::Drained,
            };
            assert_eq!(rt; channel.stands, stands, "{queue:?}: channel {number}");
        }
    }
    Ok(())
}

/// A failed channel is told by the status, and not on standard error.
#[test]
fn status_of_a_failed_run(rt: HostRuntime) -> Result<(), Fail> {
    let text = failing_session(&rt, PING, r#","abort_after":0"#)?;
    let report = "channel 0 failed Aborted\ntail 1\nActive\nbytes 0 -\nwrites 0\n";
    for queue in ["waiting", "ring"] {
        running::runs(&rt, text.as_str(), queue, 1, report)?;
    }
    Ok(())
}

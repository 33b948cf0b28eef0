//! An admission on one thread: closing, giving up, and the answers of each call at each phase.

ghost use Rattle.std.specs.Prelude.{◌≡◌, IfOk};

use pl_words::{Admission, OwnerSeat, Refused, SendSeat, Status, StillOpen};
use std::alloc::{AllocError, Global};
use std::test::Fail;

/// What one call answered.
#[derive(Clone, Copy, Debug, PartialEq, Eq)]
enum Answer {
    /// `admit`: why there is no admission, or None where there is one.
    Admit(Option<Refused>),
    /// `status`, or `seen`.
    Status(Status),
    /// `finish`.
    Finish(Result<(), StillOpen>),
    /// `retire`.
    Kept(u64),
}

const ADMITTED: Answer = Answer::Admit(None);

const REFUSED: Answer = Answer::Admit(Some(Refused::Closed));

const CLOSED: Answer = Answer::Finish(Ok(()));

/// Closing had begun, and this many admissions were counted.
const fn counted(count: u64) -> Answer {
    Answer::Finish(Err(StillOpen {
        count,
        closing: true,
    }))
}

/// Admits, and sends what it admitted.
fn send(admission: &Admission, seat: &mut SendSeat) -> Answer
    requires { seat.old.name ≡ admission.now.name }
    ensures { seat.new.name ≡ seat.old.name }
{
    match admission.admit(seat) {
        Ok(admitted) => {
            admitted.sent();
            Answer::Admit(None)
        }
        Err(refused) => Answer::Admit(Some(refused)),
    }
}

/// A look at the phase.
fn look(admission: &Admission, seat: &mut SendSeat) -> Answer
    requires { seat.old.name ≡ admission.now.name }
    ensures { seat.new.name ≡ seat.old.name }
{
    Answer::Status(admission.status(seat))
}

/// An attempt to close.
fn finish(admission: &Admission, owner: &mut OwnerSeat, run: u64) -> Answer
    requires { owner.old.name ≡ admission.now.name }
    ensures { owner.new.name ≡ owner.old.name }
{
    Answer::Finish(admission.finish(owner, run))
}

/// What two seats kept, counted from the word.
fn kept(
    alloc: Global,
    admission: Admission,
    first: SendSeat,
    second: SendSeat,
    owner: OwnerSeat,
) -> Result<Answer, AllocError>
    requires senders { admission.senders ≡ 2 }
    requires names { (first.name ≡ admission.name) × (second.name ≡ admission.name) × (owner.name ≡ admission.name) }
{
    let seats = vec![in alloc; first, second]?;
    Ok(Answer::Kept(admission.retire(seats, owner)))
}

/// Two seats of an admission, and the owner's.
fn two_seats(alloc: Global) -> Result<(Admission, SendSeat, SendSeat, OwnerSeat), AllocError>
    ensures senders { IfOk result (λ new. new.0.senders ≡ 2) }
    ensures names { IfOk result (λ new. (new.1.name ≡ new.0.name) × (new.2.name ≡ new.0.name) × (new.3.name ≡ new.0.name)) }
{
    let (admission, mut seats, owner) = Admission::new(alloc, 2)?;
    let (Some(second), Some(first)) = (seats.pop(), seats.pop()) else {
        unreachable!()
    };
    Ok((admission, first, second, owner))
}

/// Two senders, four admissions, the last of them while it is closing.
fn closing(alloc: Global) -> Result<[Answer; 13], AllocError> {
    let (admission, mut first, mut second, mut owner) = two_seats(alloc)?;
    let accepting = look(&admission, &mut first);
    let one = send(&admission, &mut first);
    let two = send(&admission, &mut first);
    let three = send(&admission, &mut second);
    admission.begin_close(&mut owner);
    let closing = look(&admission, &mut first);
    let still_open = finish(&admission, &mut owner, 2);
    let four = send(&admission, &mut second);
    let closed = finish(&admission, &mut owner, 4);
    let late_first = send(&admission, &mut first);
    let late_second = send(&admission, &mut second);
    let again = send(&admission, &mut first);
    let last = look(&admission, &mut first);
    let kept = kept(alloc, admission, first, second, owner)?;
    Ok([
        accepting,
        one,
        two,
        three,
        closing,
        still_open,
        four,
        closed,
        late_first,
        late_second,
        again,
        last,
        kept,
    ])
}

#[test]
fn admission_closes(rt: HostRuntime) -> Result<(), Fail> {
    let expected = [
        Answer::Status(Status::Accepting),
        ADMITTED,
        ADMITTED,
        ADMITTED,
        Answer::Status(Status::Closing),
        counted(3),
        ADMITTED,
        CLOSED,
        REFUSED,
        REFUSED,
        REFUSED,
        Answer::Status(Status::Closed),
        Answer::Kept(4),
    ];
    assert_eq!(rt; closing(rt.alloc())?, expected);
    Ok(())
}

/// Closes with nothing kept, and again.
fn closing_with_none(alloc: Global) -> Result<[Answer; 5], AllocError> {
    let (admission, mut first, second, mut owner) = two_seats(alloc)?;
    admission.begin_close(&mut owner);
    let closed = finish(&admission, &mut owner, 0);
    let again = finish(&admission, &mut owner, 0);
    admission.begin_close(&mut owner);
    let status = look(&admission, &mut first);
    let refused = send(&admission, &mut first);
    let kept = kept(alloc, admission, first, second, owner)?;
    Ok([closed, again, status, refused, kept])
}

#[test]
fn close_with_none(rt: HostRuntime) -> Result<(), Fail> {
    let expected = [
        CLOSED,
        CLOSED,
        Answer::Status(Status::Closed),
        REFUSED,
        Answer::Kept(0),
    ];
    assert_eq!(rt; closing_with_none(rt.alloc())?, expected);
    Ok(())
}

/// Makes one admission and gives it up, then asks with it, without it, and with more than any count.
fn giving_up(alloc: Global) -> Result<[Answer; 5], AllocError> {
    let (admission, mut first, second, mut owner) = two_seats(alloc)?;
    let too_early = finish(&admission, &mut owner, 0);
    if let Ok(admitted) = admission.admit(&mut first) {
        admission.give_up(&mut first, admitted);
    }
    admission.begin_close(&mut owner);
    let with_it = finish(&admission, &mut owner, 1);
    let with_most = finish(&admission, &mut owner, u64::MAX);
    let without_it = finish(&admission, &mut owner, 0);
    let kept = kept(alloc, admission, first, second, owner)?;
    Ok([too_early, with_it, with_most, without_it, kept])
}

#[test]
fn give_up_before_close(rt: HostRuntime) -> Result<(), Fail> {
    let accepting = Answer::Finish(Err(StillOpen {
        count: 0,
        closing: false,
    }));
    let expected = [accepting, counted(0), counted(0), CLOSED, Answer::Kept(0)];
    assert_eq!(rt; giving_up(rt.alloc())?, expected);
    Ok(())
}

/// Two admissions, one of which is given up after the word was closed with both: its seat sees that by then.
fn giving_up_late(alloc: Global) -> Result<[Answer; 5], AllocError> {
    let (admission, mut first, mut second, mut owner) = two_seats(alloc)?;
    let one = send(&admission, &mut first);
    let Ok(admitted) = admission.admit(&mut second) else {
        return Err(AllocError);
    };
    admission.begin_close(&mut owner);
    let closed = finish(&admission, &mut owner, 2);
    let before = Answer::Status(second.seen());
    admission.give_up(&mut second, admitted);
    let after = Answer::Status(second.seen());
    let kept = kept(alloc, admission, first, second, owner)?;
    Ok([one, closed, before, after, kept])
}

#[test]
fn give_up_after_close(rt: HostRuntime) -> Result<(), Fail> {
    let before = Answer::Status(Status::Accepting);
    let after = Answer::Status(Status::Closed);
    let expected = [ADMITTED, CLOSED, before, after, Answer::Kept(1)];
    assert_eq!(rt; giving_up_late(rt.alloc())?, expected);
    Ok(())
}

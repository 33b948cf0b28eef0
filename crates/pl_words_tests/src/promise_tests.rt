//! A row of promises on one thread: each is settled once, and those past the limit are void.

ghost use Rattle.std.specs.Prelude.{◌≡◌, ◌≤◌, IfOk};
ghost use Rattle.pl_words.specs.declared.promises.TheConstants.{MAX_PROMISES};

use pl_event::Outcome;
use pl_words::promises::{MAX_PROMISES, Promises, ReadSeat, SettleSeat};
use std::alloc::{AllocError, Global};
use std::test::Fail;

/// A row with one settler and one reader.
fn row(alloc: Global, limit: u16) -> Result<(Promises, SettleSeat, ReadSeat), AllocError>
    requires { (1 ≤ limit) × (limit ≤ MAX_PROMISES) }
    ensures { IfOk result (λ new. (new.1.name ≡ new.0.name) × (new.2.name ≡ new.0.name)) }
{
    let (promises, mut settlers, mut readers) = Promises::new(alloc, limit, 1, 1)?;
    let (Some(settler), Some(reader)) = (settlers.pop(), readers.pop()) else {
        unreachable!()
    };
    Ok((promises, settler, reader))
}

/// What the looks at a promise answer, and what settling and closing it do.
type Settled = ([Option<Outcome>; 3], [Result<(), Outcome>; 2]);

/// Looks at a promise, settles it with `Success`, looks again, tries to close it, and looks once more.
fn settling(promises: &Promises, n: u64, settler: &mut SettleSeat, reader: &mut ReadSeat) -> Settled
    requires { (settler.old.name ≡ promises.now.name) × (reader.old.name ≡ promises.now.name) }
    ensures { (settler.new.name ≡ settler.old.name) × (reader.new.name ≡ reader.old.name) }
{
    let unset = promises.peek(n, reader);
    let first = promises.try_settle(n, Outcome::Success, settler);
    let settled = promises.peek(n, reader);
    let second = promises.try_settle(n, Outcome::Closed, settler);
    let still = promises.peek(n, reader);
    ([unset, settled, still], [first, second])
}

/// The same with two promises of a row.
fn settling_two(alloc: Global, limit: u16, one: u64, two: u64) -> Result<[Settled; 2], AllocError>
    requires { (1 ≤ limit) × (limit ≤ MAX_PROMISES) }
{
    let (promises, mut settler, mut reader) = row(alloc, limit)?;
    let first = settling(&promises, one, &mut settler, &mut reader);
    let second = settling(&promises, two, &mut settler, &mut reader);
    Ok([first, second])
}

/// What a promise of the row answers.
const KEPT: Settled = (
    [None, Some(Outcome::Success), Some(Outcome::Success)],
    [Ok(()), Err(Outcome::Success)],
);

/// What a void promise answers.
const VOID: Settled = ([None, None, None], [Ok(()), Ok(())]);

#[test]
fn promise_settles_once(rt: HostRuntime) -> Result<(), Fail> {
    let (promises, mut settler, mut reader) = row(rt.alloc(), 1)?;
    assert_eq!(rt; settling(&promises, 0, &mut settler, &mut reader), KEPT);
    Ok(())
}

#[test]
fn void_promise(rt: HostRuntime) -> Result<(), Fail> {
    let settled = settling_two(rt.alloc(), 1, 1, u64::MAX)?;
    assert_eq!(rt; settled, [VOID, VOID]);
    let settled = settling_two(rt.alloc(), MAX_PROMISES, 4_095, 4_096)?;
    assert_eq!(rt; settled, [KEPT, VOID]);
    Ok(())
}

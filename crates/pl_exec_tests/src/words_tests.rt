//! The words of a session, read by any thread before a run has changed them.

ghost use Rattle.std.specs.Prelude.{◌≡◌, ◌∷◌, [], IfOk, length};
ghost use Rattle.pl_exec.specs.SessionWords.{AreHeadSeatsOf, IsReaderOf};

use crate::sessions::{NOTHING, PING, on_loops};
use pl_exec::{HeadSeats, PROMISES, Reader, Words};
use pl_text::read_session;
use pl_words::watermark::Mark;
use std::alloc::Global;
use std::fmt::Debug;
use std::process::Abort;
use std::test::Fail;
use std::thread;

/// The mark was never set, and the channel is writable.
const FRESH: Option<Mark> = Some(Mark {
    version: 0,
    unwritable: false,
});

/// The words of two channels, with two readers.
fn two_readers(alloc: Global) -> Result<(Words, HeadSeats, Reader, Reader), Fail>
    ensures { IfOk result (λ new. AreHeadSeatsOf new.0 new.1 × IsReaderOf new.0 new.2 × IsReaderOf new.0 new.3) }
{
    let session = read_session(alloc, on_loops(alloc, &[PING, NOTHING])?.as_str())?;
    let (words, heads, readers) = Words::new(alloc, &session, 2)?;
    let (first, second) = pair(readers);
    Ok((words, heads, first, second))
}

/// The two readers of a list, in order.
pub(crate) fn pair(mut readers: Vec<Reader>) -> (Reader, Reader)
    requires { length readers.items ≡ 2 }
    ensures { readers.items ≡ result.0 ∷ result.1 ∷ [] }
{
    let (Some(second), Some(first)) = (readers.pop(), readers.pop()) else {
        unreachable!()
    };
    (first, second)
}

/// Two values are the same.
pub(crate) fn assert_same<T: Debug + PartialEq + Drop>(rt: &impl Abort, found: T, expected: T) {
    assert_eq!(rt; found, expected);
}

#[test]
fn fresh_words(rt: HostRuntime) -> Result<(), Fail> {
    let (words, _heads, mut reader, _other) = two_readers(rt.alloc())?;
    assert_same(&rt, words.look(0, &mut reader), FRESH);
    assert_same(&rt, words.look(1, &mut reader), FRESH);
    assert_same(&rt, words.peek(0, 0, &mut reader), None);
    let last = u64::from(PROMISES) - 1;
    assert_same(&rt, words.peek(1, last, &mut reader), None);
    Ok(())
}

#[test]
fn a_channel_that_is_not_there(rt: HostRuntime) -> Result<(), Fail> {
    let (words, _heads, mut reader, _other) = two_readers(rt.alloc())?;
    assert_same(&rt, words.look(2, &mut reader), None);
    assert_same(&rt, words.look(usize::MAX, &mut reader), None);
    assert_same(&rt, words.peek(2, 0, &mut reader), None);
    assert_same(&rt, words.look(1, &mut reader), FRESH);
    Ok(())
}

#[test]
fn a_void_promise(rt: HostRuntime) -> Result<(), Fail> {
    let (words, _heads, mut reader, _other) = two_readers(rt.alloc())?;
    assert_same(&rt, words.peek(0, u64::from(PROMISES), &mut reader), None);
    assert_same(&rt, words.peek(0, u64::MAX, &mut reader), None);
    Ok(())
}

#[test]
fn readers_look_for_themselves(rt: HostRuntime) -> Result<(), Fail> {
    let (words, _heads, mut first, mut second) = two_readers(rt.alloc())?;
    assert_same(&rt, words.look(0, &mut first), FRESH);
    assert_same(&rt, words.look(0, &mut second), FRESH);
    assert_same(&rt, words.peek(1, 3, &mut first), None);
    assert_same(&rt, words.look(1, &mut second), FRESH);
    Ok(())
}

/// The first channel's mark, as this reader finds it.
fn look_once(words: &Words, mut reader: Reader) -> Option<Mark>
    requires { IsReaderOf words.now reader }
{
    words.look(0, &mut reader)
}

#[test]
fn readers_in_threads(rt: HostRuntime) -> Result<(), Fail> {
    let (words, _heads, first, second) = two_readers(rt.alloc())?;
    let shared = &words;
    let (found_first, found_second) = thread::join(
        &rt,
        move || -> Option<Mark>
            requires { IsReaderOf shared.now first }
        { look_once(shared, first) },
        move || -> Option<Mark>
            requires { IsReaderOf shared.now second }
        { look_once(shared, second) },
    );
    assert_same(&rt, found_first, FRESH);
    assert_same(&rt, found_second, FRESH);
    Ok(())
}

#[test]
fn no_readers(rt: HostRuntime) -> Result<(), Fail> {
    let session = read_session(rt.alloc(), on_loops(rt.alloc(), &[PING, NOTHING])?.as_str())?;
    let (_words, _heads, readers) = Words::new(rt.alloc(), &session, 0)?;
    assert!(rt; readers.is_empty());
    Ok(())
}

/// A world has the words that a session of it has.
#[test]
fn words_of_a_world(rt: HostRuntime) -> Result<(), Fail> {
    let alloc = rt.alloc();
    let session = read_session(alloc, on_loops(alloc, &[PING, NOTHING])?.as_str())?;
    let (words, _heads, readers) = Words::of_world(alloc, &session.world, 2)?;
    let (mut first, mut second) = pair(readers);
    assert_same(&rt, words.look(1, &mut first), FRESH);
    assert_same(&rt, words.look(2, &mut first), None);
    assert_same(&rt, words.peek(1, 0, &mut second), None);
    let (_words, _heads, none) = Words::of_world(alloc, &session.world, 0)?;
    assert!(rt; none.is_empty());
    Ok(())
}

#[test]
fn refused_memory(rt: HostRuntime) -> Result<(), Fail> {
    // Where an allocation is made to fail, the first call is refused, and the second finds memory.
    let session = read_session(rt.alloc(), on_loops(rt.alloc(), &[PING, NOTHING])?.as_str())?;
    let alloc = rt.alloc();
    assert!(rt; Words::new(alloc, &session, 2).is_ok() || Words::new(alloc, &session, 2).is_ok());
    let world = &session.world;
    assert!(rt;
        Words::of_world(alloc, world, 2).is_ok() || Words::of_world(alloc, world, 2).is_ok()
    );
    Ok(())
}

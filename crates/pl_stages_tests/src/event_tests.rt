//! The bytes, the sequences and the keys, each call once.

use crate::tests::assert_events;
use pl_event::{ByteString, Event, Key, Sequence};
use std::alloc::{AllocError, Global};
use std::process::Abort;
use std::test::Fail;

pub(crate) fn text(alloc: Global, bytes: &[u8]) -> Result<ByteString, AllocError> {
    ByteString::from_slice(alloc, bytes)
}

/// Whether a string holds these bytes.
fn is(alloc: Global, string: &ByteString, bytes: &[u8]) -> Result<bool, AllocError> {
    Ok(*string == text(alloc, bytes)?)
}

/// A string holds these bytes.
fn assert_holds(rt: &impl Abort, string: &ByteString, bytes: &[u8]) {
    assert_eq!(rt; string.as_slice(), bytes);
    assert!(rt; string.len() == bytes.len() && string.is_empty() == bytes.is_empty());
}

#[test]
fn byte_strings(rt: HostRuntime) -> Result<(), Fail> {
    let alloc = rt.alloc();
    assert_holds(&rt, &text(alloc, b"")?, b"");
    let mut ping = text(alloc, b"PI")?;
    ping.extend_from_slice(b"NG")?;
    assert_holds(&rt, &ping, b"PING");
    assert_holds(&rt, &ping.clone()?, b"PING");
    let same = is(alloc, &ping, b"PING")?;
    let others = [is(alloc, &ping, b"PONG")?, is(alloc, &ping, b"PIN")?];
    assert!(rt; same && others == [false, false]);
    assert!(rt; ping.into_vec()?.as_slice() == b"PING".as_slice());
    Ok(())
}

#[test]
fn cut_byte_strings(rt: HostRuntime) -> Result<(), Fail> {
    let alloc = rt.alloc();
    for bytes in [
        b"PING PONG".as_slice(),
        b"more bytes than the string itself has room for",
    ] {
        let mut string = ByteString::from_vec(Vec::from_slice(alloc, bytes)?);
        assert_holds(&rt, &string, bytes);
        string.drop_front(3);
        assert_holds(&rt, &string, &bytes[3..]);
        string.truncate(bytes.len());
        assert_holds(&rt, &string, &bytes[3..]);
        string.truncate(2);
        assert_holds(&rt, &string, &bytes[3..5]);
        string.drop_front(2);
        assert_holds(&rt, &string, b"");
    }
    Ok(())
}

#[test]
fn sequences(rt: HostRuntime) -> Result<(), Fail> {
    let told = [Event::Active, Event::Flush];
    let mut events = Sequence::new(rt.alloc());
    assert!(rt; events.is_empty());
    events.push(Event::Active)?;
    events.push(Event::Flush)?;
    assert!(rt; !events.is_empty() && events.len() == 2);
    assert_events(&rt, events.as_slice(), &told);

    let events = Sequence::from_vec(events.into_vec()).into_vec();
    assert_events(&rt, events.as_slice(), &told);

    let copy = Sequence::from_slice(rt.alloc(), &[7_u32, 8])?;
    assert_eq!(rt; copy.as_slice(), [7, 8].as_slice());
    let none: &[u32] = &[];
    assert!(rt; Sequence::from_slice(rt.alloc(), none)?.is_empty());
    Ok(())
}

/// A key has this name, and so has its copy.
fn assert_key(rt: &(impl Abort + AllocGlobal), name: &str) -> Result<(), Fail> {
    let key = Key::new(name.as_bytes()).ok_or("no key")?;
    assert!(rt; key.as_slice() == name.as_bytes(), "of {name:?}");
    assert!(rt; key.clone()? == key, "of {name:?}");
    Ok(())
}

#[test]
fn keys(rt: HostRuntime) -> Result<(), Fail> {
    for &name in &["a", "z", "0", "9", "hits", "abcdefghijklmnop"] {
        assert_key(&rt, name)?;
    }
    for &name in &["", "abcdefghijklmnopq", "Hits", "hi ts", "{", "`", "\n"] {
        assert!(rt; Key::new(name.as_bytes()).is_none(), "of {name:?}");
    }
    Ok(())
}

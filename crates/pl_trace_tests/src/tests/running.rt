//! Runs the program.

use pl_text::SessionFault;
use pl_trace::{Checked, check, run_trace};
use std::alloc::Global;
use std::fmt::Debug;
use std::process::Abort;
use std::rt::Files;
use std::test::Fail;

/// What a test needs of its runtime.
pub(crate) trait Runtime: Abort + Files + AllocGlobal {}

impl<R: Abort + Files + AllocGlobal> Runtime for R {}

/// What the program wrote, and its status.
#[derive(Drop)]
pub(crate) struct Said {
    pub(crate) status: u8,
    pub(crate) out: Vec<u8>,
    pub(crate) err: Vec<u8>,
}

impl Said {
    /// The text on standard output.
    pub(crate) fn out(&self) -> Result<&str, Fail> {
        Ok(str::from_utf8(self.out.as_slice())?)
    }

    /// The text on standard error.
    pub(crate) fn err(&self) -> Result<&str, Fail> {
        Ok(str::from_utf8(self.err.as_slice())?)
    }
}

/// Runs the program with these words after its name, on a session.
pub(crate) fn run(rt: &impl Runtime, words: &[&str], session: &str) -> Result<Said, Fail> {
    let alloc = rt.alloc();
    let mut line = Vec::new(alloc);
    line.push(String::from_str(alloc, "pl_trace")?)?;
    for word in words {
        line.push(String::from_str(alloc, word)?)?;
    }
    let mut reader = session.as_bytes();
    let mut out = Vec::new(alloc);
    let mut err = Vec::new(alloc);
    let status = run_trace(rt, alloc, line.as_slice(), &mut reader, &mut out, &mut err);
    Ok(Said { status, out, err })
}

/// Says that the program writes these two texts, and ends with this status.
pub(crate) fn says(
    rt: &impl Runtime,
    words: &[&str],
    session: &str,
    status: u8,
    out: &str,
    err: &str,
) -> Result<(), Fail> {
    let said = run(rt, words, session)?;
    same(rt, said.out()?, out);
    same(rt, said.err()?, err);
    same(rt, said.status, status);
    Ok(())
}

/// What the program says of these moves of a session.
pub(crate) fn traced(rt: &impl Runtime, moves: &str, session: &str) -> Result<Said, Fail> {
    run(rt, &["moves", "--moves", moves], session)
}

/// Says that the trace of these moves of a session is this text, with this status.
pub(crate) fn traces(
    rt: &impl Runtime,
    moves: &str,
    session: &str,
    status: u8,
    trace: &str,
) -> Result<(), Fail> {
    says(rt, &["moves", "--moves", moves], session, status, trace, "")
}

/// Says that these moves of a session are refused, with this text.
pub(crate) fn refuses(
    rt: &impl Runtime,
    moves: &str,
    session: &str,
    refusal: &str,
) -> Result<(), Fail> {
    says(rt, &["moves", "--moves", moves], session, 2, "", refusal)
}

/// The fault that a check of a text finds, and where.
pub(crate) fn checked(
    alloc: Global,
    text: &str,
) -> Result<(Option<SessionFault>, Option<String>), Fail> {
    let Checked {
        session,
        place,
        warnings,
    } = check(alloc, text)?;
    drop(warnings);
    Ok((session.err(), place))
}

/// Says that two values are the same.
pub(crate) fn same<T: PartialEq + Debug + Drop>(rt: &impl Abort, left: T, right: T) {
    assert_eq!(rt; left, right);
}

//! Runs the program on a session.

use crate::tests::sessions::add;
use pl_tool::run_tool;
use std::alloc::{AllocError, Global};
use std::io::{Read, Write};
use std::sync::Wait;
use std::test::Fail;
use std::thread::Threads;

/// What the program is run with: an allocator, and threads.
pub(crate) trait Runtime: AllocGlobal + Sync + Threads + Wait {}

impl<R: AllocGlobal + Sync + Threads + Wait> Runtime for R {}

/// What a run answered: its status, and what it wrote to each writer.
#[derive(Debug, Drop)]
pub(crate) struct Ran {
    pub(crate) status: u8,
    pub(crate) out: Vec<u8>,
    pub(crate) err: Vec<u8>,
}

/// The arguments of a command line, of which the first is the program's name.
fn args(alloc: Global, line: &[&str]) -> Result<Vec<String>, AllocError> {
    let mut args = Vec::new(alloc);
    add(&mut args, String::from_str(alloc, "pl_tool"))?;
    for arg in line {
        add(&mut args, String::from_str(alloc, arg))?;
    }
    Ok(args)
}

/// Runs the program on a reader and two writers, and gives the status.
pub(crate) fn status_of<R: Read, W: Write, E: Write>(
    rt: &impl Runtime,
    line: &[&str],
    reader: &mut R,
    out: &mut W,
    err: &mut E,
) -> Result<u8, Fail> {
    let args = args(rt.alloc(), line)?;
    Ok(run_tool(rt, rt.alloc(), args.as_slice(), reader, out, err))
}

/// The same, and what it wrote to each writer.
pub(crate) fn ran_on<R: Read>(
    rt: &impl Runtime,
    line: &[&str],
    reader: &mut R,
) -> Result<Ran, Fail> {
    let mut out = Vec::new(rt.alloc());
    let mut err = Vec::new(rt.alloc());
    let status = status_of(rt, line, reader, &mut out, &mut err)?;
    Ok(Ran { status, out, err })
}

/// Says that the program answers a line and a reader by this.
pub(crate) fn answers_on<R: Read>(
    rt: &impl Runtime,
    line: &[&str],
    reader: &mut R,
    status: u8,
    out: &str,
    err: &str,
) -> Result<(), Fail> {
    let ran = ran_on(rt, line, reader)?;
    if ran.status == status
        && ran.out.as_slice() == out.as_bytes()
        && ran.err.as_slice() == err.as_bytes()
    {
        Ok(())
    } else {
        Err(Fail::new(format_args!("of {line:?}: {ran:?}")))
    }
}

/// Says that the program answers a line and an input by this.
pub(crate) fn answers(
    rt: &impl Runtime,
    line: &[&str],
    input: &[u8],
    status: u8,
    out: &str,
    err: &str,
) -> Result<(), Fail> {
    let mut reader = input;
    answers_on(rt, line, &mut reader, status, out, err)
}

/// Says that `replay --moves MOVES` answers a text by this.
pub(crate) fn replays(
    rt: &impl Runtime,
    text: &str,
    moves: &str,
    status: u8,
    out: &str,
    err: &str,
) -> Result<(), Fail> {
    let line = ["replay", "--moves", moves];
    answers(rt, &line, text.as_bytes(), status, out, err)
}

/// Says that `run --queue QUEUE` reports this of a text, with this status.
pub(crate) fn runs(
    rt: &impl Runtime,
    text: &str,
    queue: &str,
    status: u8,
    report: &str,
) -> Result<(), Fail> {
    let line = ["run", "--queue", queue];
    answers(rt, &line, text.as_bytes(), status, report, "")
}

/// Says that `plain` reports this of a text.
pub(crate) fn composes(rt: &impl Runtime, text: &str, report: &str) -> Result<(), Fail> {
    answers(rt, &["plain"], text.as_bytes(), 0, report, "")
}

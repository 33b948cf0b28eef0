//! Schedules on lines, with comments and groups.

use crate::tests::running::{refuses, same};
use pl_schedule::read_script;
use pl_text::{MovesFault, moves_as_text};
use pl_text_tests::PING_SESSION;
use std::test::Fail;

#[test]
fn lines_comments_groups(rt: HostRuntime) -> Result<(), Fail> {
    let alloc = rt.alloc();
    let text = "# a burst\nR0x2 (H0 T1)x2\n\n((R0)x2 O0)x2 # the end\n( )x3 (T1)\n";
    let moves = read_script(alloc, text)?;
    let plain = moves_as_text(alloc, moves.as_slice())?;
    same(
        &rt,
        plain.as_str(),
        "R0 R0 H0 T1 H0 T1 R0 R0 O0 R0 R0 O0 T1",
    );
    Ok(())
}

#[test]
fn refused(rt: HostRuntime) -> Result<(), Fail> {
    let alloc = rt.alloc();
    for &(text, fault, line, term) in &[
        ("R0\nR0 RO\n", MovesFault::Form, 2usize, "RO"),
        ("(R0\nO0", MovesFault::Form, 2, "("),
        ("R0)", MovesFault::Form, 1, ")"),
        ("(R0)x0", MovesFault::Form, 1, ")x0"),
        ("(R0)2", MovesFault::Form, 1, ")2"),
        ("(R0x1000)x1001", MovesFault::Limit, 1, ")x1001"),
        ("R0x1000000\nR0", MovesFault::Limit, 2, "R0"),
    ] {
        let unread = read_script(alloc, text).err().ok_or("it was read")?;
        same(&rt, unread.fault, fault);
        same(&rt, unread.line, line);
        same(&rt, unread.term.as_str(), term);
    }
    Ok(())
}

/// The program says where.
#[test]
fn told(rt: HostRuntime) -> Result<(), Fail> {
    let refusal = "moves refused: 1 Form\nat line 1: T\n";
    refuses(&rt, "R0 T", PING_SESSION, refusal)
}

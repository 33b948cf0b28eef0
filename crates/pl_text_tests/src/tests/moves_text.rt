//! Texts of moves, well formed and not.

use crate::tests::fault_texts::assert_told;
use pl_text::{MovesFault, read_moves};
use pl_world::Move;
use std::test::Fail;

#[test]
fn hostile_moves(rt: HostRuntime) -> Result<(), Fail> {
    for &(text, want) in &[
        ("", Ok(0)),
        ("R0x3 O0", Ok(4)),
        ("R0x1000000", Ok(1_000_000)),
        ("T65535 H12x2", Ok(3)),
        (" R0", Err(MovesFault::Form)),
        ("R0 ", Err(MovesFault::Form)),
        ("R0  O0", Err(MovesFault::Form)),
        (" ", Err(MovesFault::Form)),
        ("r0", Err(MovesFault::Form)),
        ("R", Err(MovesFault::Form)),
        ("R+1", Err(MovesFault::Form)),
        ("R00", Err(MovesFault::Form)),
        ("R65536", Err(MovesFault::Form)),
        ("R99999999999999999999", Err(MovesFault::Form)),
        ("R0x", Err(MovesFault::Form)),
        ("R0x0", Err(MovesFault::Form)),
        ("R0x01", Err(MovesFault::Form)),
        ("R0x1x1", Err(MovesFault::Form)),
        ("R0x1000001", Err(MovesFault::Form)),
        ("R0x1000000 R0", Err(MovesFault::Limit)),
        ("R0x1000000 R0 R00", Err(MovesFault::Form)),
    ] {
        let answer = read_moves(rt.alloc(), text).map(|moves| moves.len());
        assert_eq!(rt; answer, want, "of {text}");
    }
    Ok(())
}

#[test]
fn moves_of_ping(rt: HostRuntime) -> Result<(), Fail> {
    let moves = read_moves(rt.alloc(), "R0x3 O0")?;
    let want = [Move::Read(0), Move::Read(0), Move::Read(0), Move::Out(0)];
    assert_eq!(rt; moves.as_slice(), want.as_slice());
    Ok(())
}

#[test]
fn moves_fault_texts(rt: HostRuntime) -> Result<(), Fail> {
    assert_told(&rt, MovesFault::Form, "1 Form")?;
    assert_told(&rt, MovesFault::Limit, "2 Limit")?;
    assert_told(&rt, MovesFault::Memory, "3 Memory")
}

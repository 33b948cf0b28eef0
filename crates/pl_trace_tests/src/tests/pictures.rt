//! Pictures.

use crate::tests::lines::count_of;
use crate::tests::running::{Runtime, Said, run, same};
use crate::tests::sessions::failing;
use pl_text_tests::{DECODER_APART, PING_SESSION};
use std::process::Abort;
use std::test::Fail;

/// What the program says of a picture of these moves of a session.
fn drawn(rt: &impl Runtime, moves: &str, session: &str) -> Result<Said, Fail> {
    run(rt, &["picture", "--moves", moves], session)
}

/// Says how often each of these parts stands in a picture.
fn has(rt: &impl Abort, picture: &str, parts: &[(&str, usize)]) {
    for &(part, count) in parts {
        same(rt, count_of(picture, part), count);
    }
}

/// A box for each move, a mark for each hand-over, and an arrow from it to its task.
#[test]
fn hand_overs(rt: HostRuntime) -> Result<(), Fail> {
    let said = drawn(&rt, "R0 H0 H0 T1 H1 T0", DECODER_APART)?;
    let text = said.out()?;
    assert!(rt; text.starts_with("<svg "));
    assert!(rt; text.ends_with("</svg>\n"));
    let parts = [
        ("<g>", 6),
        ("class=\"p\"", 1),
        ("<circle class=\"i\"", 2),
        ("<line class=\"h\"", 2),
        ("<line class=\"q\"", 2),
        ("<circle class=\"e\"", 1),
        ("<script", 0),
    ];
    has(&rt, text, &parts);
    same(&rt, said.status, 1);
    Ok(())
}

/// A transport that fails, and the failure on its way to the tail.
#[test]
fn failures(rt: HostRuntime) -> Result<(), Fail> {
    let moves = "R0x2 (H0 T1 H1 T0)x3 O0x2 R0 H0 T1 H1 T0";
    let said = drawn(&rt, moves, failing(rt.alloc())?.as_str())?;
    let parts = [
        // The boxes of the read step, and of the tasks that take the failure.
        ("<rect class=\"x\"", 3),
        ("<circle class=\"b\"", 1),
        // At the transport, in two queues, and at the tail.
        ("<circle class=\"f\"", 4),
        (">failed Transport<", 2),
    ];
    has(&rt, said.out()?, &parts);
    Ok(())
}

/// What XML reads as more than letters is no part of it.
#[test]
fn hostile_name(rt: HostRuntime) -> Result<(), Fail> {
    let name = r#""name":"</svg><script>\u0000\uffff&""#;
    let session = PING_SESSION.replace(rt.alloc(), r#""name":"lines""#, name)?;
    let said = drawn(&rt, "R0x3 O0", session.as_str())?;
    let text = said.out()?;
    has(&rt, text, &[("<script", 0), ("</svg>", 1)]);
    assert!(rt; 1 <= count_of(text, "0/&lt;/svg&gt;&lt;script&gt;??&amp; takes #0 Active"));
    Ok(())
}

/// Many moves have narrow columns, and at last neither words nor titles.
#[test]
fn many_moves(rt: HostRuntime) -> Result<(), Fail> {
    for &(moves, words, titles) in &[
        ("R0x64", 64usize, 64usize),
        ("R0x65", 65, 65),
        ("R0x257", 0, 257),
        ("R0x4097", 0, 0),
    ] {
        let said = drawn(&rt, moves, PING_SESSION)?;
        let parts = [("<text class=\"w\"", words), ("<title>", titles)];
        has(&rt, said.out()?, &parts);
    }
    Ok(())
}

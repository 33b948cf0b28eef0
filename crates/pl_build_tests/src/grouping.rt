//! Placing on loops and groups, and groups that are refused.

use crate::sample::{Small, assert_counts, assert_numbers, built, line_protocol};
use pl_build::{BuildFault, Groups, Placed};
use std::process::Abort;
use std::test::Fail;

#[test]
fn group_placing(rt: HostRuntime) -> Result<(), Fail> {
    let mut groups = Groups::new(rt.alloc(), 1, &[("g", 2)])?;
    assert_eq!(rt; groups.executors(), 3);
    for &executor in &[1, 2, 1] {
        let placed = built(line_protocol(rt.alloc(), Some("g"))?, &mut groups)?;
        assert_grouped(&rt, &placed, executor);
        let (inbound, outbound, executors) = placed.into_parts();
        assert_numbers(&rt, inbound.as_slice(), &[1, 2, 5]);
        assert_numbers(&rt, outbound.as_slice(), &[4, 3]);
        assert_eq!(rt;
            executors.as_slice(),
            [0, executor, executor, 0, 0, 0, 0].as_slice()
        );
    }
    Ok(())
}

/// The decoder and the service of a line protocol are on an executor, and all else is on executor 0.
fn assert_grouped(rt: &impl Abort, placed: &Placed<Small>, executor: u16) {
    assert_counts(rt, placed, (3, 2, 2));
    for hop in 0..7u16 {
        let want = if hop == 1 || hop == 2 { executor } else { 0 };
        assert!(rt; placed.executor_of(hop) == Some(want), "at hop {hop}");
    }
    assert_eq!(rt; placed.executor_of(7), None);
}

#[test]
fn channels_in_turn_on_loops(rt: HostRuntime) -> Result<(), Fail> {
    let mut groups = Groups::new(rt.alloc(), 2, &[("a", 1), ("b", 3)])?;
    for &(group, place, executor) in &[
        (None, 0, 0),
        (Some("b"), 1, 3),
        (Some("a"), 0, 2),
        (Some("b"), 1, 4),
    ] {
        let placed = built(line_protocol(rt.alloc(), group)?, &mut groups)?;
        assert_on_loop(&rt, &placed, place, executor);
    }
    Ok(())
}

/// The decoder of a line protocol is on an executor, and the first, the third and the last hop are on their loop.
fn assert_on_loop(rt: &impl Abort, placed: &Placed<Small>, place: u16, executor: u16) {
    assert_eq!(rt; placed.executor_of(0), Some(place));
    assert_eq!(rt; placed.executor_of(1), Some(executor));
    assert_eq!(rt; placed.executor_of(3), Some(place));
    assert_eq!(rt; placed.executor_of(6), Some(place));
}

/// As many executors as there may be: loops alone, and loops with groups.
#[test]
fn most_executors(rt: HostRuntime) -> Result<(), Fail> {
    let cases: [(u16, &[(&str, u16)]); 3] = [
        (64, &[]),
        (63, &[("g", 1)]),
        (1, &[("g", 1), ("h", 62)]),
    ];
    for &(loops, groups) in &cases {
        let groups = Groups::new(rt.alloc(), loops, groups)?;
        assert_eq!(rt; groups.executors(), 64);
    }
    Ok(())
}

#[test]
fn group_refusals(rt: HostRuntime) {
    let cases: [(u16, &[(&str, u16)], BuildFault); 6] = [
        (0, &[], BuildFault::Limit),
        (64, &[("g", 1)], BuildFault::Limit),
        (1, &[("g", 1), ("g", 1)], BuildFault::DuplicateName),
        (1, &[("g", 1), ("g", 63)], BuildFault::Limit),
        (1, &[("g", 0)], BuildFault::Limit),
        (1, &[("", 1)], BuildFault::Limit),
    ];
    for &(loops, groups, fault) in &cases {
        let refused = Groups::new(rt.alloc(), loops, groups).err();
        assert!(rt; refused == Some(fault));
    }
    let loops_alone = Groups::new(rt.alloc(), 65, &[]).err();
    assert_eq!(rt; loops_alone, Some(BuildFault::Limit));
}

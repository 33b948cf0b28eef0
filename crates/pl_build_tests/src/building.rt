//! Edits of a pipeline, in their order and refused, and what is built.

use crate::sample::{
    Small, assert_chains, assert_counts, built, fault_of, inbound, line_protocol, outbound,
    refused, turn,
};
use pl_build::{BuildFault, Groups, PipelineBuilder, Placed};
use std::alloc::{AllocError, Global};
use std::fmt::Debug;
use std::process::Abort;
use std::test::Fail;

#[test]
fn builder_refusals(rt: HostRuntime) -> Result<(), Fail> {
    let mut groups = Groups::new(rt.alloc(), 1, &[])?;
    let mut builder = line_protocol(rt.alloc(), None)?;
    let last = fault_of(builder.add_last("lines", None, inbound(6)));
    let before = fault_of(builder.add_before("nobody", "new", None, inbound(7)));
    let after = fault_of(builder.add_after("nobody", "lines", None, inbound(7)));
    assert!(rt; last == Err(BuildFault::DuplicateName));
    assert!(rt; before == Err(BuildFault::NoSuchName));
    assert!(rt; after == Err(BuildFault::DuplicateName));
    assert_eq!(rt;
        builder.remove("nobody").err(),
        Some(BuildFault::NoSuchName)
    );
    assert_chains(&rt, built(builder, &mut groups)?, &[1, 2, 5], &[4, 3]);
    Ok(())
}

/// A value as `Debug` shows it.
fn shown<T: Debug + Drop>(alloc: Global, value: T) -> Result<String, AllocError> {
    format!(in alloc; "{value:?}")
}

#[test]
fn refusals_by_their_fault(rt: HostRuntime) -> Result<(), Fail> {
    let alloc = rt.alloc();
    let mut builder = PipelineBuilder::new(alloc);
    builder.add_last("one", None, inbound(1))?;
    let added = shown(alloc, builder.add_last("one", None, inbound(2)))?;
    assert_eq!(rt; added.as_str(), "Err(Unadded { fault: DuplicateName, .. })");
    let mut groups = Groups::new(alloc, 1, &[])?;
    let unbuilt = builder.build(&mut groups).err().ok_or("it is built")?;
    assert_eq!(rt;
        shown(alloc, unbuilt)?.as_str(),
        "Unbuilt { fault: NoTurn, .. }"
    );
    Ok(())
}

#[test]
fn builder_order(rt: HostRuntime) -> Result<(), Fail> {
    let mut groups = Groups::new(rt.alloc(), 1, &[])?;
    let mut builder = PipelineBuilder::new(rt.alloc());
    fault_of(builder.add_last("a", None, turn(1)))?;
    fault_of(builder.add_first("b", None, inbound(2)))?;
    fault_of(builder.add_before("a", "c", None, inbound(3)))?;
    fault_of(builder.add_after("a", "d", None, outbound(4)))?;
    assert_eq!(rt; builder.remove("b")?.number, 2);
    let placed = built(builder, &mut groups)?;
    assert_counts(&rt, &placed, (2, 0, 1));
    assert!(rt; placed.executor_of(3) == Some(0) && placed.executor_of(4).is_none());
    assert!(rt; placed.low() == 32_768 && placed.high() == 65_536);
    assert_chains(&rt, placed, &[3, 1], &[]);
    Ok(())
}

/// Adds two turns in a group.
fn add_turns(builder: &mut PipelineBuilder<Small>) -> Result<(), BuildFault> {
    builder.add_last("one", Some("g"), turn(2))?;
    builder.add_last("two", Some("g"), turn(3))?;
    Ok(())
}

/// Refuses marks and names, and then holds as many handlers as there may be.
fn assert_limits(
    rt: &(impl Abort + AllocGlobal),
    builder: &mut PipelineBuilder<Small>,
) -> Result<(), Fail> {
    assert_eq!(rt; builder.marks(9, 8), Err(BuildFault::Marks));
    assert_eq!(rt; builder.marks(1_073_741_825, 8), Err(BuildFault::Limit));
    builder.marks(4, 8)?;
    assert_no_name(rt, builder, "");
    let long = "a".repeat(rt.alloc(), 65)?;
    assert_no_name(rt, builder, long.as_str());
    for number in 0..31u8 {
        let name = format!(in rt.alloc(); "h{number}")?;
        fault_of(builder.add_last(name.as_str(), None, outbound(number)))?;
    }
    let full = fault_of(builder.add_last("one", None, inbound(4)));
    assert_eq!(rt; full, Err(BuildFault::Limit));
    Ok(())
}

/// No handler may have this name.
fn assert_no_name(rt: &impl Abort, builder: &mut PipelineBuilder<Small>, name: &str) {
    let fault = fault_of(builder.add_first(name, None, inbound(4)));
    assert_eq!(rt; fault, Err(BuildFault::Limit));
}

#[test]
fn build_refusals(rt: HostRuntime) -> Result<(), Fail> {
    let mut groups = Groups::new(rt.alloc(), 1, &[("g", 2)])?;
    let mut builder = PipelineBuilder::new(rt.alloc());
    builder.add_last("first", Some("x"), inbound(1))?;
    let mut builder = refused(&rt, builder, &mut groups, BuildFault::NoSuchGroup)?;
    builder.remove("first")?;
    let mut builder = refused(&rt, builder, &mut groups, BuildFault::NoTurn)?;
    add_turns(&mut builder)?;
    let mut builder = refused(&rt, builder, &mut groups, BuildFault::TwoTurns)?;
    builder.remove("two")?;
    assert_limits(&rt, &mut builder)?;
    let placed = built(builder, &mut groups)?;
    assert_counts(&rt, &placed, (1, 0, 0));
    assert!(rt; placed.low() == 4 && placed.high() == 8);
    assert_eq!(rt; placed.executor_of(0), Some(1));
    Ok(())
}

/// A builder with two turns, by `?` on each add.
fn two_turns(
    alloc: Global,
    first: &str,
    second: &str,
) -> Result<PipelineBuilder<Small>, BuildFault> {
    let mut builder = PipelineBuilder::new(alloc);
    builder.add_last(first, None, turn(1))?;
    builder.add_first(second, None, turn(2))?;
    Ok(builder)
}

/// A pipeline without its first handler, by `?` on the build.
fn built_without(
    builder: PipelineBuilder<Small>,
    name: &str,
    groups: &mut Groups,
) -> Result<Placed<Small>, BuildFault> {
    let mut builder = builder;
    builder.remove(name)?;
    let placed = builder.build(groups)?;
    Ok(placed)
}

#[test]
fn refused_add_is_passed_on(rt: HostRuntime) -> Result<(), Fail> {
    match two_turns(rt.alloc(), "turn", "turn") {
        Ok(_) => panic!(rt; "both are added"),
        Err(fault) => assert_eq!(rt; fault, BuildFault::DuplicateName),
    }
    match two_turns(rt.alloc(), "turn", "") {
        Ok(_) => panic!(rt; "both are added"),
        Err(fault) => assert_eq!(rt; fault, BuildFault::Limit),
    }
    Ok(())
}

#[test]
fn refused_build_is_passed_on(rt: HostRuntime) -> Result<(), Fail> {
    let mut groups = Groups::new(rt.alloc(), 1, &[])?;
    let mut builder = two_turns(rt.alloc(), "one", "two")?;
    fault_of(builder.add_last("more", Some("g"), inbound(3)))?;
    match built_without(builder, "two", &mut groups) {
        Ok(_) => panic!(rt; "it is built"),
        Err(fault) => assert_eq!(rt; fault, BuildFault::NoSuchGroup),
    }
    let builder = two_turns(rt.alloc(), "one", "two")?;
    let placed = built_without(builder, "two", &mut groups)?;
    assert_eq!(rt; placed.turn(), 0);
    Ok(())
}

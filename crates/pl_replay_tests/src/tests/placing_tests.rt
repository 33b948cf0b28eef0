//! The hop of a turn.

use crate::tests::net_tests::{TOGETHER, line_protocol, pipeline};
use pl_build::Groups;
use std::test::Fail;

#[test]
fn turn_of_a_chain(rt: HostRuntime) -> Result<(), Fail> {
    let alloc = rt.alloc();
    let mut groups = Groups::new(alloc, 1, &[])?;
    let kinds = line_protocol(TOGETHER);
    assert_eq!(rt; pipeline(alloc, &mut groups, &kinds)?.turn(), 2);
    Ok(())
}

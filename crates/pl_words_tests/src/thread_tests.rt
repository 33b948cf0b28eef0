//! The words under threads.

use crate::feeding::feed_and_close;
use pl_words::Admission;
use pl_words::promises::Promises;
use pl_words::watermark::Watermark;
use std::alloc::AllocError;
use std::test::Fail;

/// How often each thread tries to send.
const TIMES: u32 = 200_000;

#[test]
fn three_feed_while_closing(rt: HostRuntime) -> Result<(), Fail> {
    let counter = feed_and_close(&rt, rt.alloc(), TIMES)?;
    assert_eq!(rt;
        counter.counted,
        counter.first + counter.second + counter.third
    );
    if let Some(run) = counter.closed_with {
        assert_eq!(rt; counter.counted, run);
    }
    Ok(())
}

/// Whether it was made.
fn is_made<T: Drop>(made: Result<T, AllocError>) -> bool {
    made.is_ok()
}

#[test]
fn refused_memory(rt: HostRuntime) -> Result<(), Fail> {
    // Where an allocation is made to fail, the first call is refused, and the second finds memory.
    let alloc = rt.alloc();
    assert!(rt; is_made(Admission::new(alloc, 3)) || is_made(Admission::new(alloc, 3)));
    assert!(rt; is_made(Watermark::new(alloc, 4, 8, 3)) || is_made(Watermark::new(alloc, 4, 8, 3)));
    assert!(rt; is_made(Promises::new(alloc, 5, 3, 3)) || is_made(Promises::new(alloc, 5, 3, 3)));
    Ok(())
}

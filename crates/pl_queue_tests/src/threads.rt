//! Three functions at a time.

use std::thread;
use std::thread::Threads;

/// Calls three functions, each on a thread of its own.
pub fn join_three<
    R: Threads + Sync,
    F: FnOnce() -> A + Send,
    G: FnOnce() -> B + Send,
    H: FnOnce() -> C,
    A: Send,
    B: Send,
    C,
>(rt: &R, f: F, g: G, h: H) -> (A, B, C)
    requires { F.pre f × G.pre g × H.pre h }
    ensures { F.post f result.0 × G.post g result.1 × H.post h result.2 }
{
    let (first, (second, third)) = thread::join(
        rt,
        f,
        move || -> (B, C)
            requires { G.pre g × H.pre h }
            ensures { G.post g result.0 × H.post h result.1 }
        { thread::join(rt, g, h) },
    );
    (first, second, third)
}

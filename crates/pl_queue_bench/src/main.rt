//! Moves envelopes through a mailbox, also with its admission, or through the plain queue of the same crate.
//!
//! usage: pl_queue_bench WORKLOAD COUNT     COUNT envelopes in all. With no workload it moves nothing.
#![tactic(auto)]

mod boxes;
mod plain;
mod posts;

use crate::plain::{PlainRing, PlainWaiting};
use crate::posts::{Alone, ByHand};
use pl_event::Named;
use pl_post::Post;
use pl_queue::{Mailbox, RingBox, WaitingBox};
use std::alloc::Global;
use std::marker::Brand;
use std::sync::Wait;
use std::thread::Threads;
use std::{env, io};

/// The capacity of every queue.
pub const CAPACITY: usize = 1_024;

// The workload that the command line asks for, and its count.
fn asked(rt: &HostRuntime) -> io::Result<Option<(String, u32)>> {
    let mut words = env::args(rt)?;
    let _program = words.next();
    let Some(workload) = words.next() else {
        return Ok(None);
    };
    Ok(
        words
            .next()
            .and_then(|word| word.as_str().parse::<u32>().ok())
            .map(|count| (workload, count)),
    )
}

// What one box does.
fn by_box<W: Named + Send + Sync, M: Mailbox<W> + Drop + Send + Sync, R: Threads + Wait + Sync>(
    rt: &R,
    alloc: Global,
    workload: &str,
    count: u32,
) -> Option<u64>
where
    M::Sender: Send,
    M::Taker: Send,
{
    let total = u64::from(count);
    match workload {
        "lane" => boxes::in_turns::<W, M, R>(rt, alloc, 1, 1, 1, total),
        "lanes" => boxes::in_turns::<W, M, R>(rt, alloc, 1, 8_192, 1, total / 8_192),
        "senders" => boxes::in_turns::<W, M, R>(rt, alloc, 8_192, 1, 65_535, total / 8_192),
        _ => posts::by_closable::<W, Alone<M>, R>(rt, alloc, workload, count),
    }
}

fn main(rt: HostRuntime) -> io::Result<()> {
    let Some((workload, count)) = asked(&rt)? else {
        return Ok(());
    };
    let alloc = rt.alloc();
    let moved = match workload.as_str().split_once('_') {
        Some(("ring", rest)) => by_box::<Brand, RingBox<Brand>, _>(&rt, alloc, rest, count),
        Some(("waiting", rest)) => by_box::<Brand, WaitingBox<Brand>, _>(&rt, alloc, rest, count),
        Some(("plainring", rest)) => plain::by_queue::<PlainRing, _>(&rt, alloc, rest, count),
        Some(("plainwaiting", rest)) => plain::by_queue::<PlainWaiting, _>(&rt, alloc, rest, count),
        Some(("postring", rest)) => {
            posts::by_closable::<Brand, Post<Brand, RingBox<Brand>>, _>(&rt, alloc, rest, count)
        }
        Some(("postwaiting", rest)) => {
            posts::by_closable::<Brand, Post<Brand, WaitingBox<Brand>>, _>(&rt, alloc, rest, count)
        }
        Some(("handring", rest)) => {
            posts::by_closable::<Brand, ByHand<RingBox<Brand>>, _>(&rt, alloc, rest, count)
        }
        Some(("handwaiting", rest)) => {
            posts::by_closable::<Brand, ByHand<WaitingBox<Brand>>, _>(&rt, alloc, rest, count)
        }
        _ => None,
    };
    match moved {
        Some(moved) => println!(rt; "{moved}"),
        None => println!(rt; "nothing"),
    }
}

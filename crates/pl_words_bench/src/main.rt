//! Times the steps on the words of `pl_words`, each beside a plain atomic operation of the same kind.
//!
//! usage: pl_words_bench COUNT     With no count it measures nothing.
#![tactic(auto)]

mod plain;
mod rows;
mod steps;

use std::{env, io};

/// The count that the command line asks for, or None.
fn count_of(rt: &HostRuntime) -> io::Result<Option<u32>> {
    let mut words = env::args(rt)?;
    let _program = words.next();
    Ok(
        words
            .next()
            .and_then(|word| word.as_str().parse::<u32>().ok()),
    )
}

fn main(rt: HostRuntime) -> io::Result<()> {
    match count_of(&rt)? {
        Some(count) => rows::measure(&rt, &rt, count),
        None => Ok(()),
    }
}

//! `pl_trace`: shows what a schedule does with a session, makes schedules, and checks sessions. The session comes on
//! standard input.
#![tactic(auto)]

use pl_trace::{refuse_args, run_trace};
use std::process::ExitCode;
use std::{env, io};

/// The arguments of the command line.
fn args(rt: &HostRuntime) -> io::Result<Vec<String>> {
    let args = env::args(rt)?.collect(rt.alloc())?;
    Ok(args)
}

/// Runs the program, and ends with its status.
fn main(rt: HostRuntime) -> ExitCode {
    let status = match args(&rt) {
        Ok(args) => run_trace(
            &rt,
            rt.alloc(),
            args.as_slice(),
            &mut rt.stdin(),
            &mut rt.stdout(),
            &mut rt.stderr(),
        ),
        Err(error) => refuse_args(&error, &mut rt.stderr()),
    };
    ExitCode::from(status)
}

//! Trains behind records that others made.
#![tactic(auto)]

use run_worker::start;
use std::process::ExitCode;

fn main(rt: HostRuntime) -> ExitCode {
    start(&rt, rt.stdin(), rt.stdout(), &mut rt.stderr())
}

//! Plans hydropower reservoirs and thermal plants.
#![tactic(auto)]

use run_program::start;
use std::process::ExitCode;

fn main(rt: HostRuntime) -> ExitCode {
    start(&rt, rt.stdin(), rt.stdout(), &mut rt.stderr())
}

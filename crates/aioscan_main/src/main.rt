//! The program `aioscan`.
#![tactic(auto)]

use std::process::ExitCode;

fn main(rt: HostRuntime) -> ExitCode {
    aioscan_cmd::program::run(&rt)
}

//! The program `aioscan` once more, with a stored run that each of its words decides: of a file
//! whose second page is damaged it lists that page as zeros, and ends at the block behind it with
//! status 6. The error stream is joined to standard output, so that the run compares its lines too.
#![tactic(auto)]

mod joined;

use crate::joined::JoinedStreams;
use std::process::ExitCode;

fn main(rt: HostRuntime) -> ExitCode {
    aioscan_cmd::program::run(&JoinedStreams { rt: &rt })
}

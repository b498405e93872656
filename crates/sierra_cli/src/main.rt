//! The program `sierra`.
#![tactic(auto)]

use sierra_main::sierra_main;
use std::process::ExitCode;

fn main(rt: HostRuntime) -> ExitCode {
    sierra_main(rt)
}

//! The work of `sierra` once more, run on arguments that are answered: so the gate sees both statuses, that of an output here and
//! that of a refusal where the program itself is run.
#![tactic(auto)]

use sierra_main::sierra_main;
use std::process::ExitCode;

fn main(rt: HostRuntime) -> ExitCode {
    sierra_main(rt)
}

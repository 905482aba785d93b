//! The processes of a farm, in a program of their own: it is all that a farm needs, and stands on half of the crates.
#![tactic(auto)]

use processcommands::{print_no_words, program_words};
use processes::run;
use std::process::ExitCode;

fn main(rt: HostRuntime) -> ExitCode {
    let mut out = rt.stdout();
    let mut err = rt.stderr();
    let status = match program_words(&rt) {
        Ok(words) => run(&rt, words.as_slice(), &mut out, &mut err),
        Err(error) => print_no_words(&error, &mut err),
    };
    ExitCode::from(status)
}

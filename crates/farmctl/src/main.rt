//! The program: it does what its words say. What its commands answer is in the crate `commands`.
#![tactic(auto)]

use commands::{print_no_words, program_words, run};
use std::process::ExitCode;

fn main(rt: HostRuntime) -> ExitCode {
    let mut out = rt.stdout();
    let mut err = rt.stderr();
    let status = match program_words(&rt) {
        Ok(words) => run(&rt, words.as_slice(), &mut out, &mut err),
        Err(error) => print_no_words(&error, &mut err),
    };
    ExitCode::from(status)
}

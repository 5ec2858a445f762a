// The program: the top call over the files and the streams of the system.
#![tactic(auto)]

use std::env;
use std::process::ExitCode;
use vximage_cli::{program, words_of};

fn main(rt: HostRuntime) -> ExitCode {
    let words = words_of(rt.alloc(), env::args(&rt));
    program(&rt, words, rt.stdout(), rt.stderr())
}

//! `psb DISK WORDS`: one node of a peer-to-peer backup system. DISK is the path of the node's file;
//! the words are the command.
#![tactic(auto)]

mod machine;
mod program;

use crate::program::{Program, exit_code};
use backup_cli::Status;
use psb_host::{Standard, Unknown};
use std::alloc::AllocError;
use std::env;
use std::env::Env;
use std::io::ErrorKind;
use std::process::ExitCode;

/// All words that the program was given, its own name in front; none where one is not UTF-8.
fn words_given<R: Env + AllocGlobal>(rt: &R) -> Result<Vec<String>, AllocError> {
    match env::args(rt) {
        Ok(args) => args.collect(rt.alloc()),
        Err(error) if error.kind() == ErrorKind::OutOfMemory => Err(AllocError),
        Err(_) => Ok(Vec::new(rt.alloc())),
    }
}

/// Memory ran out before the command was begun.
fn no_memory(rt: &HostRuntime) -> ExitCode {
    let _ = println!(rt; "no memory");
    exit_code(Status::Memory)
}

fn main(rt: HostRuntime) -> ExitCode {
    let _standard = Standard::take(&rt);
    let Ok(words) = words_given(&rt) else {
        return no_memory(&rt);
    };
    match Program::new(&rt, Unknown, Unknown, words) {
        Ok(mut program) => program.run(),
        Err(_) => no_memory(&rt),
    }
}

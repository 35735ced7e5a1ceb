//! The program. It uses the files of the current folder, standard output, the arguments of the command line, and a
//! machine of two drives.
#![tactic(auto)]

use flop_base::Status;
use flop_outside::{FileShelf, StreamSink};
use floppy_tools::{PLAN_VARIABLE, run_program};
use std::env::{self, VarError};
use std::io::ErrorKind;
use std::process::ExitCode;
use std::rt::Env;

/// If this variable is set, to any value, no file is replaced that this run didn't load.
const KEEP_VARIABLE: &str = "FLOPPY_KEEP";

fn main(rt: HostRuntime) -> ExitCode {
    let mut shelf = FileShelf::new(&rt, rt.alloc()).keeping(is_set(&rt, KEEP_VARIABLE));
    let mut out = StreamSink::new(&rt);
    let status = match words(&rt) {
        Ok(words) => {
            let plan = env::var(&rt, PLAN_VARIABLE);
            run_program(rt.alloc(), plan, &words, &mut shelf, &mut out).status()
        }
        Err(status) => status,
    };
    ExitCode::from(status.number())
}

/// The arguments after the program's name. If one of them isn't text, there are none: such an argument is no part of a
/// subcommand, and no arguments at all are no subcommand either.
fn words<R: Env + AllocGlobal>(rt: &R) -> Result<Vec<String>, Status> {
    let alloc = rt.alloc();
    match env::args(rt) {
        Ok(words) => match words.skip(1).collect(alloc) {
            Ok(words) => Ok(words),
            Err(_) => Err(Status::NoMemory),
        },
        Err(error) if error.kind() == ErrorKind::OutOfMemory => Err(Status::NoMemory),
        Err(_) => Ok(Vec::new(alloc)),
    }
}

/// Whether a variable is set. One whose value can't be read counts as set.
fn is_set<R: Env + AllocGlobal>(rt: &R, name: &str) -> bool {
    !matches!(env::var(rt, name), Err(VarError::NotPresent))
}

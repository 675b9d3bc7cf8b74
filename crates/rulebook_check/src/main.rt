//! The program that has no command but `check`: `main` hands the words of the system to `run_check`, with the files and the
//! standard output of the system, and ends with the number of the status that it gives.
#![tactic(auto)]

use check_command::run_check;
use outside_io::{FileStore, StdSink};
use std::process::ExitCode;
use std::{env, io};

fn words_given(rt: &HostRuntime) -> io::Result<Vec<String>> {
    env::args(rt)?
        .skip(1)
        .collect(rt.alloc())
        .map_err(io::Error::from)
}

fn main(rt: HostRuntime) -> ExitCode {
    match words_given(&rt) {
        Ok(words) => {
            let mut store = FileStore::new(&rt, rt.alloc());
            let mut out = StdSink::new(&rt);
            let status = run_check(rt.alloc(), &words, &mut store, &mut out);
            ExitCode::from(status.exit_number())
        }
        Err(error) if error.kind() == io::ErrorKind::OutOfMemory => ExitCode::from(5),
        Err(_) => ExitCode::from(8),
    }
}

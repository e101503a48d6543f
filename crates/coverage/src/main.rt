//! The program: the top call of coverage over the real files and standard output.
#![tactic(auto)]

use rv_coverage::rv_coverage;
use rv_io::{Disk, Stdout};
use rv_text::{NO_MEMORY, REFUSED};
use std::alloc::AllocError;
use std::process::ExitCode;
use std::{env, io};

/// The words behind the program's name.
fn words(rt: &HostRuntime) -> io::Result<Vec<String>> {
    let mut words = Vec::new(rt.alloc());
    for word in env::args(rt)?.skip(1) {
        words.push(word).map_err(|_| io::Error::from(AllocError))?;
    }
    Ok(words)
}

fn main(rt: HostRuntime) -> ExitCode {
    match words(&rt) {
        Ok(words) => {
            let mut store = Disk::new(&rt);
            let mut out = Stdout::new(&rt);
            let finished = rv_coverage(rt.alloc(), words.as_slice(), &mut store, &mut out);
            ExitCode::from(finished.status)
        }
        Err(error) if error.kind() == io::ErrorKind::OutOfMemory => ExitCode::from(NO_MEMORY),
        Err(_) => {
            let _ = println!(rt; "rv: refused 1");
            ExitCode::from(REFUSED)
        }
    }
}

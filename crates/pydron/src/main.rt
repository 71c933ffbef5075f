//! `pydron` runs or checks a script of standard input, or writes its graph.
#![tactic(auto)]

use pyd_source::{StdSink, StdSource};
use pyd_top::{Conclusion, end_with, pydron_here};
use std::alloc::Global;
use std::process::ExitCode;
use std::{env, io};

fn main(rt: HostRuntime) -> ExitCode {
    let mut err = StdSink::new(rt.stderr());
    let status = match read_words(&rt) {
        Ok(words) => {
            let mut source = StdSource::new(rt.stdin());
            let out = StdSink::new(rt.stdout());
            pydron_here(rt.alloc(), &words, &mut source, out, &mut err, &[]).status
        }
        Err(conclusion) => end_with(&mut err, conclusion),
    };
    ExitCode::from(status.code())
}

/// The words behind the program's name.
fn read_words(rt: &HostRuntime) -> Result<Vec<String>, Conclusion> {
    let args = match env::args(rt) {
        Ok(args) => args,
        Err(error) if error.kind() == io::ErrorKind::OutOfMemory => {
            return Err(Conclusion::NoMemory);
        }
        Err(_) => return Err(Conclusion::Words),
    };
    args.skip(1)
        .collect(rt.alloc())
        .map_err(|_| Conclusion::NoMemory)
}

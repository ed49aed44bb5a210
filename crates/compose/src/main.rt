//! Reads calls as lines of text from standard input and writes their frames to standard output.
//!
//!     compose < day.calls > day.frames
//!
//! Empty lines and lines that begin with `#` are passed over. Every line that is not a call is told on standard error,
//! and then nothing is written.
#![tactic(auto)]

mod lines;
mod parts;

use crate::lines::read_call;
use anyhow::ensure;
use std::io::{BufRead, BufReader, Write};
use std::process::ExitCode;
use std::{env, io};
use wire::write_call;

/// The frames of all lines, if each is a call.
fn compose(rt: &HostRuntime) -> anyhow::Result<Vec<u8>> {
    let mut frames = Vec::new(rt.alloc());
    let mut wrong = false;
    let lines = BufReader::new(rt.alloc(), rt.stdin())?.lines(rt.alloc());
    for (number, line) in (1..u64::MAX).zip(lines) {
        let line = line?;
        let text = line.as_str().trim();
        if text.is_empty() || text.starts_with('#') {
            continue;
        }
        match read_call(text) {
            Ok(call) => write_call(&mut frames, &call)?,
            Err(fault) => {
                wrong = true;
                eprintln!(rt; "compose: line {number}: {fault}")?;
            }
        }
    }
    ensure!(!wrong, "nothing written, since not every line is a call");
    Ok(frames)
}

fn run(rt: &HostRuntime) -> anyhow::Result<()> {
    ensure!(
        env::args(rt)?.nth(1).is_none(),
        "compose takes no words: it reads lines and writes frames"
    );
    let frames = compose(rt)?;
    let mut stdout = rt.stdout();
    stdout.write_all(frames.as_slice())?;
    stdout.flush()?;
    Ok(())
}

// Each program tells its own name, and a crate for these lines would be no plainer.
fn main(rt: HostRuntime) -> io::Result<ExitCode> {
    match run(&rt) {
        Ok(()) => Ok(ExitCode::SUCCESS),
        Err(error) => {
            eprintln!(rt; "compose: {error}")?;
            Ok(ExitCode::FAILURE)
        }
    }
}

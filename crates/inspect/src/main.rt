//! Reads captured call frames from standard input and prints a line for each: what it says, or which refusal it gets.
//!
//!     inspect [lot=100|500|1000] < capture.frames
#![tactic(auto)]

use anyhow::{Context, bail};
use codec::next_call;
use faults::{FieldFault, FrameFault};
use std::io::{BufWriter, IsTerminal, Read, Write};
use std::process::ExitCode;
use std::{env, io};
use types::Lot;
use wire::FrameReader;
use words::{CallLine, RefusalLine};

/// How often progress is shown where standard error is a terminal.
const FRAMES_A_SIGN: u64 = 262_144;

fn read_lot(value: &str) -> Option<Lot> {
    let shares = value.parse::<u32>().ok()?;
    Lot::try_from(shares).ok()
}

fn read_words(rt: &HostRuntime) -> anyhow::Result<Lot> {
    let mut lot = Lot::Hundred;
    for word in env::args(rt)?.skip(1) {
        lot = match word.as_str().split_once('=') {
            Some(("lot", value)) => read_lot(value).context("lot= takes 100, 500 or 1000")?,
            _ => bail!("the only word is lot=100, lot=500 or lot=1000"),
        };
    }
    Ok(lot)
}

fn run(rt: &HostRuntime) -> anyhow::Result<()> {
    let lot = read_words(rt)?;
    let mut input = Vec::new(rt.alloc());
    rt.stdin().read_to_end(&mut input)?;
    let terminal = rt.stderr().is_terminal();
    let mut out = BufWriter::new(rt.alloc(), rt.stdout())?;
    let mut frames = FrameReader::new(input.as_slice());
    let mut count = 0u64;
    let mut refused = 0u64;
    // The range numbers the lines, and the input ends the loop.
    for number in 1..u64::MAX {
        let Some(next) = next_call(&mut frames, lot).transpose() else {
            break;
        };
        count = number;
        match next {
            Ok(call) => writeln!(out, "{number} {}", CallLine { call })?,
            Err(fault) => {
                refused += 1;
                let refusal = fault.into();
                writeln!(out, "{number} {}", RefusalLine { refusal })?;
                // Behind a frame that is cut short there is none to read.
                if fault == FieldFault::Frame(FrameFault::Short) {
                    break;
                }
            }
        }
        if terminal && number % FRAMES_A_SIGN == 0 {
            eprintln!(rt; "inspect: {number} frames so far")?;
        }
    }
    let left = frames.bytes_left();
    writeln!(
        out,
        "end {count} frames, {refused} refused, {left} bytes not read"
    )?;
    out.flush()?;
    Ok(())
}

// Each program tells its own name, and a crate for these lines would be no plainer.
fn main(rt: HostRuntime) -> io::Result<ExitCode> {
    match run(&rt) {
        Ok(()) => Ok(ExitCode::SUCCESS),
        Err(error) => {
            eprintln!(rt; "inspect: {error}")?;
            Ok(ExitCode::FAILURE)
        }
    }
}

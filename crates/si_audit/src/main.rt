//! The audit of a history that a multiversion store recorded: it reads the history from standard input and writes the
//! report to standard output.
#![tactic(auto)]

mod account;
mod answer;
mod audit;
mod crew;
mod devices;
mod edge_lines;
mod engine;
mod explain;
mod giving;
mod laws;
mod options;
mod pivot_lines;
mod report;
mod run;
mod sheet;
mod snapshot_lines;
mod snapshots;
mod spelled;
#[cfg(test)]
mod tests;
mod told;
mod words;

use devices::FromStd;
use options::Options;
use run::{RunFault, run, status};
use std::alloc::{AllocError, Global};
use std::env::Env;
use std::fmt::Display;
use std::io::ErrorKind;
use std::process::ExitCode;
use words::{LineFault, options_from};

/// The status where help was asked for.
const HELPED: u8 = 0;

/// The status where the command line was refused.
const LINE_REFUSED: u8 = 2;

/// The status where a device failed or memory ran out.
const NOT_DONE: u8 = 4;

/// What is told where the words name a level that is none, in the words of the other faults.
const NO_LEVEL: &str = "error: invalid value for '--check <LEVEL>'
  [possible values: serializable, ssi, si, gsi]

For more information, try '--help'.
";

/// Says a line on standard error, and answers the status. Where the line can't be written the status alone tells.
fn say<R: Eprint, D: Display + Drop>(rt: &R, line: D, status: u8) -> u8 {
    let _ = eprintln!(rt; "si_audit: {line}");
    status
}

/// The text with each control character but line feeds by its number, so that no word of the command line upsets a terminal.
fn shown(alloc: Global, text: &str) -> Result<String, AllocError> {
    let mut shown = String::new(alloc);
    for c in text.chars() {
        if c.is_control() && c != '\n' {
            shown.push_str(format!(in alloc; "\\x{:02x}", u32::from(c))?.as_str())?;
        } else {
            shown.push(c)?;
        }
    }
    Ok(shown)
}

/// Tells why the words give no options, and answers the status.
fn tell<R: Alloc<A = Global> + Print + Eprint>(rt: &R, fault: LineFault) -> u8 {
    match fault {
        LineFault::Help(text) => match rt.print(text) {
            Ok(()) => HELPED,
            Err(_) => say(rt, RunFault::Write, NOT_DONE),
        },
        LineFault::Usage(text) => {
            let Ok(text) = shown(rt.alloc(), text.as_str()) else {
                return say(rt, RunFault::NoMemory, NOT_DONE);
            };
            let _ = rt.eprint(text);
            LINE_REFUSED
        }
        LineFault::TooManyCuts => say(rt, "too many cuts", LINE_REFUSED),
        LineFault::UnknownLevel => {
            let _ = rt.eprint(NO_LEVEL);
            LINE_REFUSED
        }
        LineFault::NoMemory => say(rt, RunFault::NoMemory, NOT_DONE),
    }
}

/// The options that the program's words give, or the status where they give none, which is told.
fn options_given<R: Env + Alloc<A = Global> + Print + Eprint>(rt: &R) -> Result<Options, u8> {
    match std::env::args(rt).map(|words| words.collect::<Vec<String>>(rt.alloc())) {
        Ok(Ok(words)) => options_from(rt.alloc(), &words).map_err(|fault| tell(rt, fault)),
        Err(error) if error.kind() == ErrorKind::InvalidData => {
            Err(say(rt, "an argument is not UTF-8", LINE_REFUSED))
        }
        _ => Err(say(rt, RunFault::NoMemory, NOT_DONE)),
    }
}

fn main(rt: HostRuntime) -> ExitCode {
    let options = match options_given(&rt) {
        Ok(options) => options,
        Err(status) => return ExitCode::from(status),
    };
    let mut reader = FromStd::new(rt.stdin());
    let mut writer = FromStd::new(rt.stdout());
    let result = run(&rt, rt.alloc(), &mut reader, &mut writer, &options);
    let status = status(&result);
    if let Err(fault) = &result {
        say(&rt, *fault, status);
    }
    ExitCode::from(status)
}

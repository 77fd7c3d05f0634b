// replay: a settlement office's life file, run again through the library.
#![tactic(auto)]

mod report;
mod source;

use asking::{Asked, asked_by, ended, read_whole};
use lifefile::script::{At, read_script};
use report::Run;
use source::{Beside, text_of};
use std::process::ExitCode;
use std::{env, fs, io};

const HELP: &str = "usage: replay [FILE ..]
Reads a life file, the record of all calls made on one settlement book, from FILE or from standard input
where no file is named. Makes the store and the book, makes each call again, and prints what it answered.
Of several files each is a life of its own, headed by a line with # and its name.

The lines of a life file, one call a line, words parted by one space:
  store ring WIDTH DAYS [WORDS]           a ring, in WORDS words of memory or as many as it needs
  store journal WIDTH BYTES               a journal, in BYTES bytes
  keep SPAN                               a keeper over the store
  terms KINDS W0 W1 QC UF AF [FEAST ..]   fills the terms
  register POD CHOICE POWER               registers a resource
  enter RESOURCE DAY FILE                 imports the meter export FILE, which stands beside the life file
  curve RESOURCE DAY VALUE[*COUNT] ..     enters a curve of 96 values in Wh, injected minus drawn; E is estimated
  drop DAY                                drops the curves of earlier days
  order DAY Q0 Q1 up|down QR              books an order
  declare DAY Q0 Q1                       declares unavailability
  settle ORDER                            settles an order
  month YEAR MONTH                        the month's figures
  line YEAR MONTH                         the month's line of fourteen figures
First one store, right after it at most one keep, then terms once or more, then the rest in any sequence.
A DAY is a number or a date such as 2026-06-28, a quarter (W0, W1, Q0, Q1) a number or a time such as 11:00.
A line that is empty or begins with # is passed over.

Each call prints its line number and `ok` with its answer, or `refused` with the refusal's number, layer and
two places, what was refused and whose matter it is. A granted settle also prints the evidence of each resource.

A refusal is no error: the life goes on after it. A line that cannot be read, a call out of sequence, an export
that cannot be read or a store that finds no memory is reported on standard error with its line number; nothing
from that line on is run.
Exit status: 0 where the life was run to its end, 1 where it was not.";

// The status tells whether the life is run to its end.
fn replay(rt: &HostRuntime, life: &str, bytes: Vec<u8>) -> anyhow::Result<ExitCode> {
    let text = text_of(rt.alloc(), bytes)?;
    let script = read_script(rt.alloc(), &Beside { rt, life }, text.as_str());
    let mut out = String::new(rt.alloc());
    let mut run = Run {
        heap: rt.alloc(),
        out: &mut out,
        script: &script,
    };
    let flaw = run.run()?;
    print!(rt; "{out}")?;
    match flaw {
        None => Ok(ExitCode::SUCCESS),
        Some(At { line, what }) => {
            eprintln!(rt; "replay: line {line}: {what}")?;
            Ok(ExitCode::FAILURE)
        }
    }
}

// Several files are told apart by a line with their names; the first that is not run to its end is the last.
fn replay_all(rt: &HostRuntime, files: &[String]) -> anyhow::Result<ExitCode> {
    for file in files {
        if files.len() > 1 {
            println!(rt; "# {file}")?;
        }
        let status = match fs::read(rt, file.as_str()) {
            Ok(bytes) => replay(rt, file.as_str(), bytes)?,
            // Told here: an error that is passed on keeps a text only in part.
            Err(e) => {
                eprintln!(rt; "replay: {file} cannot be read: {e}")?;
                ExitCode::FAILURE
            }
        };
        if status != ExitCode::SUCCESS {
            return Ok(status);
        }
    }
    Ok(ExitCode::SUCCESS)
}

fn run(rt: &HostRuntime) -> anyhow::Result<ExitCode> {
    let words: Vec<String> = env::args(rt)?.skip(1).collect(rt.alloc())?;
    match asked_by(words.as_slice()) {
        Asked::Help => {
            println!(rt; "{HELP}")?;
            Ok(ExitCode::SUCCESS)
        }
        Asked::Input => replay(rt, "", read_whole(rt.alloc(), rt.stdin())?),
        Asked::Files(files) => replay_all(rt, files),
    }
}

fn main(rt: HostRuntime) -> io::Result<ExitCode> {
    ended(&rt, "replay", run(&rt))
}

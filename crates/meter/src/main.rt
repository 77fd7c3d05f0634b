// meter: one meter export, where its columns stood and what its day amounts to.
#![tactic(auto)]

use anyhow::bail;
use asking::{Asked, asked_by, ended, read_whole};
use std::process::ExitCode;
use std::{env, fs, io};

mod report;

const HELP: &str = "usage: meter [FILE]
Reads one day's meter export from FILE, or from standard input where no file is named, and prints
where QUARTER, A1 (drawn), A2 (injected) and STATE stood, which columns were skipped, the day's total
of injected minus drawn energy, its lowest and highest quarter and the quarters that are estimated.
An export that is not well formed is refused: the refusal is printed with its number, line and column
and whose matter it is, and the program ends with status 1.";

fn read_file(rt: &HostRuntime, file: &str) -> anyhow::Result<ExitCode> {
    match fs::read(rt, file) {
        Ok(bytes) => report::export(rt, bytes.as_slice()),
        // Told here: an error that is passed on keeps a text only in part.
        Err(e) => {
            eprintln!(rt; "meter: {file} cannot be read: {e}")?;
            Ok(ExitCode::FAILURE)
        }
    }
}

fn run(rt: &HostRuntime) -> anyhow::Result<ExitCode> {
    let words: Vec<String> = env::args(rt)?.skip(1).collect(rt.alloc())?;
    if words.len() > 1 {
        bail!("more than one file is named; meter --help says what it takes");
    }
    match asked_by(words.as_slice()) {
        Asked::Help => {
            println!(rt; "{HELP}")?;
            Ok(ExitCode::SUCCESS)
        }
        // Files are never none: the empty list stands here so that no arm catches the rest.
        Asked::Input | Asked::Files([]) => {
            report::export(rt, read_whole(rt.alloc(), rt.stdin())?.as_slice())
        }
        Asked::Files([file, ..]) => read_file(rt, file.as_str()),
    }
}

fn main(rt: HostRuntime) -> io::Result<ExitCode> {
    ended(&rt, "meter", run(&rt))
}

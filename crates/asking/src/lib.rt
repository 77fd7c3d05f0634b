// What a program is asked to read, the reading of it, and how the program ends.
#![tactic(auto)]

ghost use Rattle.std.specs.Prelude.{◌≡◌, IfErr, IfOk, IfSome, Ok};
ghost use Rattle.asking.specs.Asked.{Asks};

use std::alloc::Global;
use std::io;
use std::io::Read;
use std::process::ExitCode;

#[cfg(test)]
mod tests;

// What the words after a program's name ask for: the first decides, and of files all are the names.
#[derive(Clone, Copy, PartialEq, Eq, Debug)]
pub enum Asked<'a> {
    Help,
    Input,
    Files(&'a [String]),
}

// Without a word the standard input is read.
pub fn asked_by(words: &[String]) -> Asked<'_>
    ensures { Asks words.now result }
{
    match words.first().map(|word| word.as_str()) {
        Some("--help" | "-h") => Asked::Help,
        Some("-") | None => Asked::Input,
        Some(_) => Asked::Files(words),
    }
}

// All that a reader has left.
pub fn read_whole<R: Read>(heap: Global, mut reader: R) -> io::Result<Vec<u8>>
where
    R: Drop,
    ensures { IfOk result (λ bytes. IfSome (R.remaining reader) (λ xs. bytes.items ≡ xs)) }
{
    let mut bytes = Vec::new(heap);
    reader.read_to_end(&mut bytes)?;
    Ok(bytes)
}

// The status that a run ends with; its error is told under the program's name.
pub fn ended(rt: &HostRuntime, program: &str, run: anyhow::Result<ExitCode>) -> io::Result<ExitCode>
    ensures kept { IfOk run (λ status. result ≡ Ok status) }
    ensures failed { IfErr run (λ _. IfOk result (λ status. status ≡ ExitCode.FAILURE)) }
{
    match run {
        Ok(status) => Ok(status),
        Err(e) => {
            eprintln!(rt; "{program}: {e}")?;
            Ok(ExitCode::FAILURE)
        }
    }
}

// A whole life file: its store and terms, its calls in order, and how far it can be read.
ghost use Rattle.std.specs.Prelude.{◌≡◌, ◌+◌, ◌<◌, ◌≤◌, true, is_some, is_ok, vec_len};

use crate::flaw::Flaw;
use crate::line::{Line, Note, StoreLine, TermsLine, is_passed_over, parse_line};
use ledger::fault::BookFault;
use ledger::life::Call;
use ledger::terms::Terms;
use metering::fault::Fault;
use metering::import::import;
use std::alloc::Global;

// Where the texts of meter exports come from.
pub trait Exports {
    fn text_of(&self, file: &str) -> Result<Vec<u8>, Flaw>;
}

// What stands at a line, counted from 1.
#[derive(Clone, Copy)]
pub struct At<T> {
    pub line: usize,
    pub what: T,
}

// A call of the book, or a curve that never came to be. A life takes its calls as one slice, so a step names its by place.
#[derive(Clone, Copy)]
pub enum Step {
    Unformed(Fault),
    Asked { call: usize, note: Note },
}

// The sequence of lines: a keeper and terms only after a store, calls only after terms.
#[derive(Drop)]
pub struct Script {
    pub store: Option<At<StoreLine>>,
    pub keep: Option<At<u32>>,
    pub fillings: Vec<At<Result<(), BookFault>>>,
    pub terms: Terms,
    pub steps: Vec<At<Step>>,
    pub calls: Vec<Call>,
    pub flaw: Option<At<Flaw>>,
    ghost kept: { is_some keep ≡ true → is_some store ≡ true },
    ghost filled: { 0 < vec_len fillings → is_some store ≡ true },
    ghost stepped: { 0 < vec_len steps → 0 < vec_len fillings },
    ghost listed: { vec_len calls ≤ vec_len steps },
}

impl Script {
    fn new(heap: Global) -> Script {
        Script {
            store: None,
            keep: None,
            fillings: Vec::new(heap),
            terms: Terms::new(),
            steps: Vec::new(heap),
            calls: Vec::new(heap),
            flaw: None,
        }
    }

    fn add_store(&mut self, line: usize, what: StoreLine) -> Result<(), Flaw> {
        if self.store.is_some() {
            return Err(Flaw::Sequence);
        }
        self.store = Some(At { line, what });
        Ok(())
    }

    fn add_keep(&mut self, line: usize, span: u32) -> Result<(), Flaw> {
        if self.store.is_none() || self.keep.is_some() || !self.fillings.is_empty() {
            return Err(Flaw::Sequence);
        }
        self.keep = Some(At { line, what: span });
        Ok(())
    }

    fn add_terms(&mut self, line: usize, terms: TermsLine) -> Result<(), Flaw> {
        if self.store.is_none() || !self.steps.is_empty() {
            return Err(Flaw::Sequence);
        }
        let what = self.terms.fill(&terms.asked());
        self.fillings.push(At { line, what })?;
        Ok(())
    }

    fn add_step(&mut self, line: usize, what: Step) -> Result<(), Flaw>
        ensures one { is_ok result ≡ true → vec_len self.new.steps ≡ vec_len self.old.steps + 1 }
        ensures calls { vec_len self.new.calls ≡ vec_len self.old.calls }
    {
        if self.fillings.is_empty() {
            return Err(Flaw::Sequence);
        }
        self.steps.push(At { line, what })?;
        Ok(())
    }

    fn add_call(&mut self, line: usize, call: Call, note: Note) -> Result<(), Flaw> {
        let step = Step::Asked {
            call: self.calls.len(),
            note,
        };
        self.add_step(line, step)?;
        self.calls.push(call)?;
        Ok(())
    }

    fn add_export(
        &mut self,
        line: usize,
        resource: u32,
        day: u32,
        text: &[u8],
    ) -> Result<(), Flaw> {
        match import(text) {
            Ok(imported) => self.add_call(
                line,
                Call::Enter {
                    resource,
                    day,
                    curve: imported.curve,
                },
                Note::Columns(imported.columns),
            ),
            Err(fault) => self.add_step(line, Step::Unformed(fault)),
        }
    }

    fn add<E: Exports>(&mut self, exports: &E, line: usize, parsed: Line) -> Result<(), Flaw> {
        match parsed {
            Line::Store(what) => self.add_store(line, what),
            Line::Keep(span) => self.add_keep(line, span),
            Line::Terms(terms) => self.add_terms(line, terms),
            Line::Enter {
                resource,
                day,
                file,
            } => {
                if self.fillings.is_empty() {
                    return Err(Flaw::Sequence);
                }
                let text = exports.text_of(file.as_str())?;
                self.add_export(line, resource, day, text.as_slice())
            }
            Line::Unformed(fault) => self.add_step(line, Step::Unformed(fault)),
            Line::Call(call, note) => self.add_call(line, call, note),
        }
    }

    fn read<E: Exports>(
        &mut self,
        heap: Global,
        exports: &E,
        line: usize,
        text: &str,
    ) -> Result<(), Flaw> {
        if is_passed_over(text) {
            return Ok(());
        }
        let parsed = parse_line(heap, text)?;
        self.add(exports, line, parsed)
    }
}

// Up to the first line that is wrong.
pub fn read_script<E: Exports>(heap: Global, exports: &E, text: &str) -> Script {
    let mut script = Script::new(heap);
    for (line, text) in (1usize..).zip(text.split('\n')) {
        if let Err(flaw) = script.read(heap, exports, line, text) {
            script.flaw = Some(At { line, what: flaw });
            return script;
        }
    }
    script
}

// A life that is run, and what it prints.
use anyhow::bail;
use ledger::life::Answer;
use ledger::records::Month;
use ledger::terms::Terms;
use lifefile::flaw::Flaw;
use lifefile::line::{Note, StoreLine};
use lifefile::making::{Made, journal_of, ring_of};
use lifefile::refused::Reply;
use lifefile::script::{At, Script, Step};
use monthly::line::write_line;
use rulebooks::SuppliedRulebook;
use settlement::live::live;
use std::alloc::{AllocError, Global};
use stores::keeper::{Keeper, keeper_fits};
use stores::store::Store;

// Longer than any line of fourteen figures.
const LONGEST_LINE: usize = 512;

fn write_month_line(
    reply: &mut Reply<'_>,
    terms: &Terms,
    figures: &Month,
) -> Result<(), AllocError> {
    let mut bytes = [0u8; LONGEST_LINE];
    let length = match write_line(terms, figures, &mut bytes) {
        Ok(length) => length as usize,
        Err(fault) => return reply.refused(fault),
    };
    write!(reply.out, "{} ok line ", reply.line)?;
    for byte in bytes.iter().take(length) {
        reply.out.push(*byte as char)?;
    }
    Ok(())
}

fn write_asked(
    reply: &mut Reply<'_>,
    note: Note,
    resources: usize,
    terms: &Terms,
    answer: &Answer,
) -> Result<(), AllocError> {
    match (note, answer) {
        (Note::Line, Answer::Month(figures)) => write_month_line(reply, terms, figures),
        _ => reply.answer(note, resources, answer),
    }
}

// A life to be run, and the text that its replies go to.
#[derive(Drop)]
pub struct Run<'a, 'b> {
    pub heap: Global,
    pub out: &'a mut String,
    pub script: &'b Script,
}

impl Run<'_, '_> {
    fn reply(&mut self, line: usize) -> Reply<'_> {
        Reply {
            out: &mut *self.out,
            line,
        }
    }

    // Each step with the answer of its call. All resources are registered before the first order.
    fn steps(&mut self, answers: &[Answer]) -> Result<(), AllocError> {
        let resources = answers
            .iter()
            .filter(|answer| matches!(answer, Answer::Registered(_)))
            .count();
        let script = self.script;
        for At { line, what } in &script.steps {
            let mut reply = self.reply(*line);
            match what {
                Step::Unformed(fault) => reply.unformed(*fault)?,
                Step::Asked { call, note } => {
                    if let Some(answer) = answers.get(*call) {
                        write_asked(&mut reply, *note, resources, &script.terms, answer)?;
                    }
                }
            }
        }
        Ok(())
    }

    fn book<S: Store + Drop>(&mut self, store: S) -> anyhow::Result<()> {
        let script = self.script;
        for At { line, what } in &script.fillings {
            self.reply(*line).filled(*what)?;
        }
        let mut answers = vec![in self.heap; Answer::Entered; script.calls.len()]?;
        let rules = SuppliedRulebook::new();
        let life = live(
            script.terms,
            store,
            rules,
            script.calls.as_slice(),
            answers.as_mut_slice(),
        );
        if life.refused.is_some() {
            bail!("the book left calls unanswered");
        }
        self.steps(answers.as_slice())?;
        Ok(())
    }

    // Its store and its book, where the machine gives the store its memory.
    fn store<S: Store + Drop>(
        &mut self,
        line: usize,
        made: Result<Made<S>, AllocError>,
    ) -> anyhow::Result<Option<At<Flaw>>> {
        let Ok(Made { store, fits }) = made else {
            return Ok(Some(At {
                line,
                what: Flaw::NoMemory,
            }));
        };
        self.reply(line).made("store", fits, &store)?;
        match self.script.keep {
            Some(At { line, what: span }) => {
                let kept = Keeper::over(store, span);
                self.reply(line).made("keep", keeper_fits(span), &kept)?;
                self.book(kept)?;
            }
            None => self.book(store)?,
        }
        Ok(self.script.flaw)
    }

    // The first line that could not be run. It is a value and no error: an error drops the text of the lines before it.
    pub fn run(&mut self) -> anyhow::Result<Option<At<Flaw>>> {
        let Some(At { line, what }) = self.script.store else {
            return Ok(self.script.flaw);
        };
        match what {
            StoreLine::Ring { width, days, words } => {
                let made = ring_of(self.heap, width, days, words);
                self.store(line, made)
            }
            StoreLine::Journal { width, bytes } => {
                let made = journal_of(self.heap, width, bytes);
                self.store(line, made)
            }
        }
    }
}

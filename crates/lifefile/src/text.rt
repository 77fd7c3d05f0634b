// The lines that a life prints.
ghost use Rattle.std.specs.Prelude.{◌≡◌, length};

use crate::line::Note;
use crate::refused::Reply;
use calendar::date_of;
use ledger::fault::BookFault;
use ledger::life::Answer;
use ledger::records::{Month, Outcome};
use metering::columns::Columns;
use std::alloc::AllocError;
use stores::fault::StoreFault;
use stores::store::Store;

// The history days as dates, latest first.
fn write_days(out: &mut String, days: &[i32], needed: i32) -> Result<(), AllocError> {
    let count = usize::try_from(needed).unwrap_or(0);
    for day in days.iter().take(count) {
        let number = u32::try_from(*day).unwrap_or(u32::MAX);
        match date_of(number) {
            Some(date) => write!(out, " {date}")?,
            None => write!(out, " {number}")?,
        }
    }
    Ok(())
}

// Methods and no `Display`: each line stands in one place, and a wrapper would hold the same text.
impl Reply<'_> {
    // A store that is made, or a keeper that is put over it, by what the whole then answers.
    pub fn made<S: Store>(
        &mut self,
        word: &str,
        fits: Result<(), StoreFault>,
        store: &S,
    ) -> Result<(), AllocError> {
        if let Err(fault) = fits {
            return self.refused(fault.into());
        }
        writeln!(
            self.out,
            "{} ok {word} width {} capacity {} span {}",
            self.line,
            store.width(),
            store.capacity(),
            store.span()
        )
    }

    pub fn filled(&mut self, filled: Result<(), BookFault>) -> Result<(), AllocError> {
        match filled {
            Ok(()) => writeln!(self.out, "{} ok terms", self.line),
            Err(fault) => self.refused(fault),
        }
    }

    fn entered(&mut self, note: Note) -> Result<(), AllocError> {
        let line = self.line;
        let Note::Columns(columns) = note else {
            return writeln!(self.out, "{line} ok curve");
        };
        let Columns {
            quarter,
            a1,
            a2,
            state,
        } = columns;
        writeln!(
            self.out,
            "{line} ok enter columns QUARTER {quarter} A1 {a1} A2 {a2} STATE {state}"
        )
    }

    fn outcome(&mut self, note: Note, outcome: Outcome) -> Result<(), AllocError> {
        write!(self.out, "{} ok settle", self.line)?;
        if let Note::Order(order) = note {
            write!(self.out, " {order}")?;
        }
        let Outcome {
            sum,
            pta,
            eda,
            seta,
            paid,
            pay,
        } = outcome;
        write!(self.out, " sum {sum} pTa {pta} EDa {eda}")?;
        writeln!(self.out, " SETa {seta} paid {paid} pay {pay}")
    }

    // One resource's 19 words of a sheet: whether it was measured, how many days, up to fifteen days, C and L.
    fn evidence(&mut self, resource: usize, words: &[i32]) -> Result<(), AllocError>
        requires { length words.now ≡ 19 }
    {
        let [measured, needed, days @ .., c, l] = words else {
            unreachable!()
        };
        write!(self.out, "{} evidence {resource}", self.line)?;
        if *measured == 0 {
            return writeln!(self.out, " estimated");
        }
        write!(self.out, " days {needed}")?;
        write_days(self.out, days, *needed)?;
        writeln!(self.out, " C {c} L {l}")
    }

    fn sheet(&mut self, resources: usize, sheet: &[i32; 608]) -> Result<(), AllocError> {
        for (resource, words) in sheet.chunks_exact(19).take(resources).enumerate() {
            self.evidence(resource, words)?;
        }
        Ok(())
    }

    fn month(&mut self, figures: &Month) -> Result<(), AllocError> {
        let Month {
            av,
            di,
            edm,
            ptm,
            setm,
            dpm,
            apm,
            upm,
            pay,
        } = *figures;
        write!(self.out, "{} ok month AV {av} DI {di}", self.line)?;
        write!(self.out, " EDm {edm} pTm {ptm} SETm {setm}")?;
        write!(self.out, " DPm {},{:02}", dpm / 100, dpm % 100)?;
        writeln!(self.out, " APm {apm} UPm {upm} pay {pay}")
    }

    // The answer of a call, after `resources` were registered.
    pub fn answer(
        &mut self,
        note: Note,
        resources: usize,
        answer: &Answer,
    ) -> Result<(), AllocError> {
        let line = self.line;
        match answer {
            Answer::Refused(fault) => self.refused(*fault),
            Answer::Registered(resource) => writeln!(self.out, "{line} ok register {resource}"),
            Answer::Entered => self.entered(note),
            Answer::Dropped => writeln!(self.out, "{line} ok drop"),
            Answer::Booked(order) => writeln!(self.out, "{line} ok order {order}"),
            Answer::Declared => writeln!(self.out, "{line} ok declare"),
            Answer::Settled { outcome, sheet } => {
                self.outcome(note, *outcome)?;
                self.sheet(resources, sheet)
            }
            Answer::Month(figures) => self.month(figures),
        }
    }
}

// What the calls of June answered.
use anyhow::{Context, anyhow};
use calendar::{Date, date_of};
use ledger::life::Answer;
use ledger::records::{Month, Outcome};
use ledger::terms::Terms;
use monthly::line::write_line;
use std::str;

fn tell_day(rt: &HostRuntime, day: i32) -> anyhow::Result<()> {
    let number = u32::try_from(day).map_err(|_| anyhow!("a day of the evidence is below 0"))?;
    let date = date_of(number).context("a day of the evidence is no day")?;
    println!(rt; "  {date}")?;
    Ok(())
}

// The fifteen history days of resource 0, then its lead sums on the day and over them.
fn tell_evidence(rt: &HostRuntime, sheet: &[i32; 608]) -> anyhow::Result<()> {
    let [_, _, days @ .., c, l] = &sheet[..19] else {
        unreachable!()
    };
    println!(rt; "history days:")?;
    for day in days {
        tell_day(rt, *day)?;
    }
    println!(rt; "lead quarters: {c} Wh on the day, {l} Wh over the history days")?;
    Ok(())
}

fn tell_outcome(rt: &HostRuntime, outcome: &Outcome) -> anyhow::Result<()> {
    let Outcome {
        pta,
        eda,
        seta,
        pay,
        ..
    } = *outcome;
    println!(rt;
        "settled: {pta} Wh delivered of {eda} Wh ordered, {seta} Wh remunerated, line pay {pay} cents"
    )?;
    Ok(())
}

fn tell_month(rt: &HostRuntime, terms: &Terms, figures: &Month) -> anyhow::Result<()> {
    println!(rt; "June 2026 pays {} cents; its line:", figures.pay)?;
    let mut line = [0u8; 256];
    let length = write_line(terms, figures, &mut line).map_err(|_| anyhow!(
        "the line is longer than its memory"
    ))?;
    let bytes = line
        .get(0..length as usize)
        .context("the line is longer than its memory")?;
    print!(rt; "{}", str::from_utf8(bytes)?)?;
    Ok(())
}

pub fn tell_entered(rt: &HostRuntime, answers: &[Answer]) -> anyhow::Result<()> {
    let entered = answers
        .iter()
        .filter(|answer| matches!(answer, Answer::Entered))
        .count();
    println!(rt; "{entered} curves entered, 2026-05-20 to 2026-06-30")?;
    Ok(())
}

pub fn tell(rt: &HostRuntime, terms: &Terms, answer: &Answer) -> anyhow::Result<()> {
    match answer {
        Answer::Refused(fault) => println!(rt; "refused with {}", fault.refusal().number)?,
        Answer::Registered(number) => println!(rt; "resource {number} registered: 8 kW, choice 1")?,
        Answer::Entered | Answer::Dropped => {}
        Answer::Booked(number) => println!(rt;
            "order {number} booked: 2026-06-30, 11:00 to 12:00, upward, 8 kW"
        )?,
        Answer::Declared => println!(rt; "12 quarters declared: 2026-06-05, 10:00 to 13:00")?,
        Answer::Settled { outcome, sheet } => {
            tell_outcome(rt, outcome)?;
            tell_evidence(rt, sheet)?;
        }
        Answer::Month(figures) => tell_month(rt, terms, figures)?,
    }
    Ok(())
}

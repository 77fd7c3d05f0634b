// june: one pool's June 2026, from its curves to the line of fourteen figures.
#![tactic(auto)]

mod calls;
mod report;

use anyhow::bail;
use calls::life_of_june;
use ledger::life::{Answer, Call};
use ledger::terms::{Asked, Terms};
use rulebooks::SuppliedRulebook;
use settlement::live::live;
use stores::journal::Journal;
use stores::keeper::Keeper;

// A hundred and one rows, kept for ninety days.
fn run(rt: &HostRuntime, terms: Terms, calls: &[Call]) -> anyhow::Result<()> {
    let memory = vec![in rt.alloc(); 0u8; 39_087]?;
    let store = Keeper::over(Journal::new(memory, 1), 90);
    let mut answers = vec![in rt.alloc(); Answer::Entered; calls.len()]?;
    let life = live(
        terms,
        store,
        SuppliedRulebook::new(),
        calls,
        answers.as_mut_slice(),
    );
    if life.refused.is_some() {
        bail!("there is no room for the answers");
    }
    println!(rt; "working days, 10:00 to 18:00, QC 20 kW, UF 0,2000, AF 0,0050, feast 2026-06-02")?;
    report::tell_entered(rt, answers.as_slice())?;
    for answer in &answers {
        report::tell(rt, &terms, answer)?;
    }
    Ok(())
}

fn main(rt: HostRuntime) -> anyhow::Result<()> {
    let mut terms = Terms::new();
    // working days, 10:00 to 18:00, 20 kW, 0.2000 EUR per kWh, 0.0050 EUR per kW and hour, the feast of 2 June
    let asked = Asked {
        kinds: 1,
        w0: 40,
        w1: 72,
        qc: 20,
        uf: 2_000,
        af: 50,
        feasts: &[9_649],
    };
    if terms.fill(&asked).is_err() {
        bail!("the terms are refused");
    }
    let calls = life_of_june(rt.alloc())?;
    run(&rt, terms, calls.as_slice())
}

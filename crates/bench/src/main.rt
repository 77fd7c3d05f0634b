// bench: how long a book of the greatest size takes to settle its orders, on a ring and on a full journal.
#![tactic(auto)]

mod asking;
mod load;
mod report;
mod timing;

use std::env;

const HELP: &str = "usage: bench run
Settles 128 orders of 8 quarters over 32 resources and 400 days of curves, first on a ring and then on
a journal whose 12,800 rows are all used, and prints what each took: entering the curves, settling, and
the same questions put to the store alone. Each order looks at fifteen history days of each resource.
On the ring the settling is done three times, each time in a new book, and the least is given.";

fn run(rt: &HostRuntime) -> anyhow::Result<()> {
    if env::args(rt)?
        .nth(1)
        .is_some_and(|word| word.as_str() == "run")
    {
        timing::on_ring(rt)?;
        timing::on_journal(rt)?;
    } else {
        println!(rt; "{HELP}")?;
    }
    Ok(())
}

fn main(rt: HostRuntime) -> anyhow::Result<()> {
    run(&rt)
}

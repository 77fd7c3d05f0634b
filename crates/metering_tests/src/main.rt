// What importing answers: for the exports named as arguments, and for texts at the edges of the format.
#![tactic(auto)]

mod edges;

use metering::import::import;
use metering::reading::Reading;
use refusals::Refusal;
use std::{env, fs};

pub fn show(rt: &HostRuntime, name: &str, text: &[u8]) -> anyhow::Result<()> {
    print!(rt; "{name}")?;
    match import(text) {
        Ok(imported) => {
            print!(rt; " ok")?;
            for reading in imported.curve.readings() {
                match reading {
                    Reading::Measured(wh) => print!(rt; " {wh}")?,
                    Reading::Estimated => print!(rt; " E")?,
                }
            }
        }
        Err(fault) => {
            let Refusal {
                number,
                layer,
                first,
                second,
            } = fault.refusal();
            print!(rt; " refused {number} {layer} {first} {second}")?;
        }
    }
    println!(rt; "")?;
    Ok(())
}

fn main(rt: HostRuntime) -> anyhow::Result<()> {
    for name in env::args(&rt)?.skip(1) {
        let text = fs::read(&rt, name.as_str())?;
        show(&rt, name.as_str(), text.as_slice())?;
    }
    edges::show_all(&rt)
}

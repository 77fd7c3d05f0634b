// What the program prints of an export.
use metering::Imported;
use metering::columns::Columns;
use metering::curve::Curve;
use metering::fault::Fault;
use metering::import::import;
use metering::reading::Reading;
use metering::summary::Peak;
use refusals::{Refusal, matter_of};
use std::alloc::{AllocError, Global};
use std::process::ExitCode;

pub fn export(rt: &HostRuntime, text: &[u8]) -> anyhow::Result<ExitCode> {
    match import(text) {
        Ok(imported) => {
            answer(rt, text, &imported)?;
            Ok(ExitCode::SUCCESS)
        }
        Err(fault) => {
            refused(rt, fault)?;
            Ok(ExitCode::FAILURE)
        }
    }
}

fn refused(rt: &HostRuntime, fault: Fault) -> anyhow::Result<()> {
    let Refusal {
        number,
        layer,
        first,
        second,
    } = fault.refusal();
    let matter = matter_of(number);
    println!(rt; "refused {number} {layer} line {first} column {second}: {fault}: {matter}")?;
    Ok(())
}

fn answer(rt: &HostRuntime, text: &[u8], imported: &Imported) -> anyhow::Result<()> {
    let Columns {
        quarter,
        a1,
        a2,
        state,
    } = imported.columns;
    println!(rt; "columns: QUARTER {quarter}, A1 (drawn) {a1}, A2 (injected) {a2}, STATE {state}")?;
    skipped(rt, text, [quarter, a1, a2, state])?;
    let total = imported.curve.total();
    println!(rt; "total: {total} Wh, injected minus drawn, over the measured quarters")?;
    peak(rt, "lowest", imported.curve.furthest(false))?;
    peak(rt, "highest", imported.curve.furthest(true))?;
    estimated(rt, &imported.curve)
}

// The columns of the first line that were not read, with their names.
fn skipped(rt: &HostRuntime, text: &[u8], read: [u8; 4]) -> anyhow::Result<()> {
    print!(rt; "skipped:")?;
    let header = text.split(|byte| *byte == b'\n').next().unwrap_or(text);
    let skipped: Vec<(u8, &[u8])> = (1u8..)
        .zip(header.split(|byte| *byte == b';'))
        .filter(|(column, _)| !read.contains(column))
        .collect(rt.alloc())?;
    if skipped.is_empty() {
        print!(rt; " no column")?;
    }
    for (column, name) in &skipped {
        let name = shown(rt.alloc(), name)?;
        print!(rt; " column {column} \"{name}\"")?;
    }
    println!(rt; "")?;
    Ok(())
}

// Bytes that do not print are shown as dots.
fn shown(heap: Global, name: &[u8]) -> Result<String, AllocError> {
    let mut shown = String::new(heap);
    for byte in name {
        shown.push(match *byte {
            b' '..=b'~' => *byte as char,
            _ => '.',
        })?;
    }
    Ok(shown)
}

fn peak(rt: &HostRuntime, word: &str, peak: Option<Peak>) -> anyhow::Result<()> {
    match peak {
        Some(Peak { quarter, wh }) => {
            let hour = quarter / 4;
            let minute = quarter % 4 * 15;
            println!(rt; "{word}: {wh} Wh in quarter {quarter}, from {hour:02}:{minute:02}")?;
        }
        None => println!(rt; "{word}: no quarter is measured")?,
    }
    Ok(())
}

fn estimated(rt: &HostRuntime, curve: &Curve) -> anyhow::Result<()> {
    let quarters: Vec<usize> = curve
        .readings()
        .iter()
        .enumerate()
        .filter(|(_, reading)| **reading == Reading::Estimated)
        .map(|(quarter, _)| quarter)
        .collect(rt.alloc())?;
    print!(rt; "estimated:")?;
    for quarter in &quarters {
        print!(rt; " {quarter}")?;
    }
    println!(rt; " ({} quarters)", quarters.len())?;
    Ok(())
}

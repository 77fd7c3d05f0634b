// Times and figures, printed.
use crate::load::ORDERS;
use anyhow::anyhow;
use ledger::fault::BookFault;
use std::time::Duration;

pub fn tell_time(rt: &HostRuntime, name: &str, time: Duration) -> anyhow::Result<()> {
    println!(rt;
        "  {name:<28} {}.{:06} s",
        time.as_secs(),
        time.subsec_micros()
    )?;
    Ok(())
}

pub fn tell_settled(rt: &HostRuntime, time: Duration, energy: u64) -> anyhow::Result<()> {
    tell_time(rt, "settling 128 orders", time)?;
    let each = time.as_micros() / u128::from(ORDERS);
    println!(rt; "  {each} microseconds an order, {energy} Wh remunerated")?;
    Ok(())
}

pub fn tell_asked(rt: &HostRuntime, time: Duration, sum: u64) -> anyhow::Result<()> {
    tell_time(rt, "of it the store's", time)?;
    println!(rt; "  {sum} Wh read")?;
    Ok(())
}

// The answer, or its refusal in words.
pub fn allowed<T>(answer: Result<T, BookFault>) -> anyhow::Result<T> {
    answer.map_err(|fault| anyhow!("refused with {}", fault.refusal().number))
}

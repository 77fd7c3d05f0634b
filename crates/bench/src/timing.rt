// The runs that are timed.
use crate::asking::ask_all;
use crate::load::{enter_all, ready, settle_all};
use crate::report::{allowed, tell_asked, tell_settled, tell_time};
use std::time::{Duration, Instant};
use stores::journal::Journal;
use stores::ring::Ring;
use stores::store::Store;

// The store, after all curves are entered by a book.
fn enter<S: Store + Drop>(rt: &HostRuntime, store: S) -> anyhow::Result<S> {
    let mut book = allowed(ready(store))?;
    let start = Instant::now(rt)?;
    allowed(enter_all(&mut book))?;
    tell_time(rt, "entering 12,800 curves", start.elapsed(rt)?)?;
    Ok(book.into_store())
}

// All orders in a new book; the time, and the store back.
fn settle<S: Store + Drop>(rt: &HostRuntime, store: S) -> anyhow::Result<(S, Duration)> {
    let mut book = allowed(ready(store))?;
    let mut sheet = vec![in rt.alloc(); 0i32; 608]?;
    let start = Instant::now(rt)?;
    let energy = allowed(settle_all(&mut book, sheet.as_mut_slice()))?;
    let time = start.elapsed(rt)?;
    tell_settled(rt, time, energy)?;
    Ok((book.into_store(), time))
}

fn ask<S: Store>(rt: &HostRuntime, store: &S) -> anyhow::Result<()> {
    let start = Instant::now(rt)?;
    let sum = ask_all(store);
    tell_asked(rt, start.elapsed(rt)?, sum)
}

pub fn on_ring(rt: &HostRuntime) -> anyhow::Result<()> {
    println!(rt; "ring of 32 resources and 400 days:")?;
    let words = vec![in rt.alloc(); 0i32; 1_241_600]?;
    let store = enter(rt, Ring::new(words, 32, 400))?;
    let (store, first) = settle(rt, store)?;
    let (store, second) = settle(rt, store)?;
    let (store, third) = settle(rt, store)?;
    tell_time(rt, "the least of three", first.min(second).min(third))?;
    ask(rt, &store)
}

pub fn on_journal(rt: &HostRuntime) -> anyhow::Result<()> {
    println!(rt; "journal of 12,800 rows:")?;
    let bytes = vec![in rt.alloc(); 0u8; 4_953_600]?;
    let store = enter(rt, Journal::new(bytes, 32))?;
    let (store, _) = settle(rt, store)?;
    ask(rt, &store)
}

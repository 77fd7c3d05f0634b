// The values of a `curve` line, as the three lists that a curve is formed of.
ghost use Rattle.std.specs.Prelude.{◌≡◌};
ghost use Rattle.std.specs.Option.{ok_or};
ghost use Rattle.lifefile.specs.declared.flaw.Flaw.TheVariants.{Value as ValueFlaw};
ghost use Rattle.lifefile.specs.Values.{value_in, injected_of, drawn_of, mark_of};

use crate::flaw::Flaw;
use crate::words::{number, number_in};
use metering::curve::Curve;
use metering::fault::Fault;
use metering::forming::form;
use std::alloc::Global;

#[derive(Clone, Copy, PartialEq, Eq, Debug)]
enum Value {
    Injected(u32),
    Drawn(u32),
    Estimated,
}

// One more than a day has: enough for the forming to refuse.
const MOST_VALUES: usize = 97;

impl Value {
    fn injected(self) -> u32
        ensures { result ≡ injected_of self }
    {
        match self {
            Value::Injected(wh) => wh,
            Value::Drawn(_) | Value::Estimated => 0,
        }
    }

    fn drawn(self) -> u32
        ensures { result ≡ drawn_of self }
    {
        match self {
            Value::Drawn(wh) => wh,
            Value::Injected(_) | Value::Estimated => 0,
        }
    }

    fn mark(self) -> u8
        ensures { result ≡ mark_of self }
    {
        match self {
            Value::Injected(_) | Value::Drawn(_) => 0,
            Value::Estimated => 1,
        }
    }
}

fn value_in(word: &str) -> Option<Value>
    ensures { result ≡ value_in word.now }
{
    if word == "E" {
        return Some(Value::Estimated);
    }
    match word.strip_prefix('-') {
        Some(drawn) => number_in(drawn).map(Value::Drawn),
        None => number_in(word).map(Value::Injected),
    }
}

fn value_of(word: &str) -> Result<Value, Flaw>
    ensures { result ≡ ok_or (value_in word.now) ValueFlaw }
{
    value_in(word).ok_or(Flaw::Value)
}

// A value and how often it stands.
fn repeated(word: &str) -> Result<(Value, u32), Flaw> {
    match word.split_once('*') {
        Some((first, count)) => Ok((value_of(first)?, number(count)?)),
        None => Ok((value_of(word)?, 1)),
    }
}

// Grows by no more than a day and a quarter, however often the value is repeated.
fn add(values: &mut Vec<Value>, word: &str) -> Result<(), Flaw> {
    let (value, count) = repeated(word)?;
    let length = values.len().saturating_add(count as usize);
    values.resize(length.min(MOST_VALUES), value)?;
    Ok(())
}

// The curve of the values, or why it cannot be formed.
pub fn curve_of(heap: Global, first: &str, more: &[&str]) -> Result<Result<Curve, Fault>, Flaw> {
    let mut values = Vec::new(heap);
    add(&mut values, first)?;
    for word in more {
        add(&mut values, word)?;
    }
    // Forming takes three lists, each in memory that is handed in.
    let injected: Vec<u32> = values.iter().map(|value| value.injected()).collect(heap)?;
    let drawn: Vec<u32> = values.iter().map(|value| value.drawn()).collect(heap)?;
    let marks: Vec<u8> = values.iter().map(|value| value.mark()).collect(heap)?;
    Ok(form(injected.as_slice(), drawn.as_slice(), marks.as_slice()))
}

// One line of a life file, by its words.
use crate::flaw::Flaw;
use crate::values::curve_of;
use crate::words::{day, direction, number, quarter};
use ledger::life::Call;
use ledger::terms::Asked;
use metering::columns::Columns;
use metering::fault::Fault;
use std::alloc::Global;

#[derive(Clone, Copy)]
pub enum StoreLine {
    Ring {
        width: u32,
        days: u32,
        words: Option<u32>,
    },
    Journal {
        width: u32,
        bytes: u32,
    },
}

#[derive(Drop)]
pub struct TermsLine {
    pub kinds: u32,
    pub w0: u32,
    pub w1: u32,
    pub qc: u32,
    pub uf: u32,
    pub af: u32,
    pub feasts: Vec<u32>,
}

impl TermsLine {
    pub(crate) fn asked(&self) -> Asked<'_> {
        Asked {
            kinds: self.kinds,
            w0: self.w0,
            w1: self.w1,
            qc: self.qc,
            uf: self.uf,
            af: self.af,
            feasts: self.feasts.as_slice(),
        }
    }
}

// What the line of an answer shows besides the answer, taken from the call's own line, since the answer tells none of it.
#[derive(Clone, Copy)]
pub enum Note {
    Plain,
    Columns(Columns),
    Order(u32),
    Line,
}

#[derive(Drop)]
pub enum Line {
    Store(StoreLine),
    Keep(u32),
    Terms(TermsLine),
    Enter {
        resource: u32,
        day: u32,
        file: String,
    },
    Unformed(Fault),
    Call(Call, Note),
}

fn store_line(words: &[&str]) -> Result<Line, Flaw> {
    let line = match words {
        ["ring", width, days] => StoreLine::Ring {
            width: number(width)?,
            days: number(days)?,
            words: None,
        },
        ["ring", width, days, words] => StoreLine::Ring {
            width: number(width)?,
            days: number(days)?,
            words: Some(number(words)?),
        },
        ["journal", width, bytes] => StoreLine::Journal {
            width: number(width)?,
            bytes: number(bytes)?,
        },
        ["ring", ..] | ["journal", ..] | [] => return Err(Flaw::Count),
        _ => return Err(Flaw::Unknown),
    };
    Ok(Line::Store(line))
}

fn keep_line(words: &[&str]) -> Result<Line, Flaw> {
    let [span] = words else {
        return Err(Flaw::Count);
    };
    Ok(Line::Keep(number(span)?))
}

fn terms_line(heap: Global, words: &[&str]) -> Result<Line, Flaw> {
    let [kinds, w0, w1, qc, uf, af, days @ ..] = words else {
        return Err(Flaw::Count);
    };
    let feasts = days.iter().map(|word| day(word)).try_collect(heap)?;
    Ok(Line::Terms(TermsLine {
        kinds: number(kinds)?,
        w0: quarter(w0)?,
        w1: quarter(w1)?,
        qc: number(qc)?,
        uf: number(uf)?,
        af: number(af)?,
        feasts,
    }))
}

fn register_line(heap: Global, words: &[&str]) -> Result<Line, Flaw> {
    let [pod, choice, power] = words else {
        return Err(Flaw::Count);
    };
    let choice = number(choice)?;
    let call = Call::Register {
        pod: pod.as_bytes().to_vec(heap)?,
        // No supplied rule has a choice above 3, so that 255 stands for all above it.
        choice: u8::try_from(choice).unwrap_or(u8::MAX),
        power: number(power)?,
    };
    Ok(Line::Call(call, Note::Plain))
}

fn enter_line(heap: Global, words: &[&str]) -> Result<Line, Flaw> {
    let [resource, on, file] = words else {
        return Err(Flaw::Count);
    };
    Ok(Line::Enter {
        resource: number(resource)?,
        day: day(on)?,
        file: String::from_str(heap, file)?,
    })
}

fn curve_line(heap: Global, words: &[&str]) -> Result<Line, Flaw> {
    let [resource, on, first, more @ ..] = words else {
        return Err(Flaw::Count);
    };
    let resource = number(resource)?;
    let day = day(on)?;
    match curve_of(heap, first, more)? {
        Ok(curve) => Ok(Line::Call(
            Call::Enter {
                resource,
                day,
                curve,
            },
            Note::Plain,
        )),
        Err(fault) => Ok(Line::Unformed(fault)),
    }
}

fn drop_line(words: &[&str]) -> Result<Line, Flaw> {
    let [before] = words else {
        return Err(Flaw::Count);
    };
    let call = Call::Drop { day: day(before)? };
    Ok(Line::Call(call, Note::Plain))
}

fn order_line(words: &[&str]) -> Result<Line, Flaw> {
    let [on, q0, q1, way, qr] = words else {
        return Err(Flaw::Count);
    };
    let call = Call::Book {
        day: day(on)?,
        q0: quarter(q0)?,
        q1: quarter(q1)?,
        direction: direction(way)?,
        qr: number(qr)?,
    };
    Ok(Line::Call(call, Note::Plain))
}

fn declare_line(words: &[&str]) -> Result<Line, Flaw> {
    let [on, q0, q1] = words else {
        return Err(Flaw::Count);
    };
    let call = Call::Declare {
        day: day(on)?,
        q0: quarter(q0)?,
        q1: quarter(q1)?,
    };
    Ok(Line::Call(call, Note::Plain))
}

fn settle_line(words: &[&str]) -> Result<Line, Flaw> {
    let [order] = words else {
        return Err(Flaw::Count);
    };
    let order = number(order)?;
    Ok(Line::Call(Call::Settle { order }, Note::Order(order)))
}

fn month_line(words: &[&str], note: Note) -> Result<Line, Flaw> {
    let [year, month] = words else {
        return Err(Flaw::Count);
    };
    let call = Call::Month {
        year: number(year)?,
        month: number(month)?,
    };
    Ok(Line::Call(call, note))
}

fn line_of(heap: Global, first: &str, words: &[&str]) -> Result<Line, Flaw> {
    match first {
        "store" => store_line(words),
        "keep" => keep_line(words),
        "terms" => terms_line(heap, words),
        "register" => register_line(heap, words),
        "enter" => enter_line(heap, words),
        "curve" => curve_line(heap, words),
        "drop" => drop_line(words),
        "order" => order_line(words),
        "declare" => declare_line(words),
        "settle" => settle_line(words),
        "month" => month_line(words, Note::Plain),
        "line" => month_line(words, Note::Line),
        _ => Err(Flaw::Unknown),
    }
}

pub fn is_passed_over(text: &str) -> bool {
    text.is_empty() || text.starts_with('#')
}

// A word between blanks.
fn present(word: &str) -> Result<&str, Flaw> {
    if word.is_empty() {
        Err(Flaw::Spaces)
    } else {
        Ok(word)
    }
}

pub fn parse_line(heap: Global, text: &str) -> Result<Line, Flaw> {
    if !text.is_ascii() {
        return Err(Flaw::NotAscii);
    }
    // Each tested before it is kept: a line of blanks alone takes no memory.
    let words: Vec<&str> = text.split(' ').map(present).try_collect(heap)?;
    match words.as_slice() {
        [first, rest @ ..] => line_of(heap, first, rest),
        [] => Err(Flaw::Count),
    }
}

// What is wrong with a line: an error of the file, and no refusal of the library.
use std::alloc::{AllocError, AllocFailed};
use std::fmt;

#[derive(Clone, Copy, PartialEq, Eq, Debug)]
pub enum Flaw {
    NotAscii,
    Spaces,
    Unknown,
    Count,
    Number,
    Day,
    Quarter,
    Direction,
    Value,
    Sequence,
    Unreadable,
    NoMemory,
}

impl From<AllocError> for Flaw {
    fn from(_e: AllocError) -> Flaw {
        Flaw::NoMemory
    }
}

impl<T: Drop> From<AllocFailed<T>> for Flaw {
    fn from(_e: AllocFailed<T>) -> Flaw {
        Flaw::NoMemory
    }
}

impl fmt::Display for Flaw {
    fn fmt<W: fmt::Write>(&self, f: &mut fmt::Formatter<W>) -> fmt::Result {
        f.write_str(match self {
            Flaw::NotAscii => "a byte that is not ASCII",
            Flaw::Spaces => "words are parted by one space, and none stands before or after them",
            Flaw::Unknown => "an unknown word",
            Flaw::Count => "a word too many or too few",
            Flaw::Number => "a number has digits only, and is at most 4294967295",
            Flaw::Day => "a day is a number, or a date from 2000-01-01 to 2099-12-31",
            Flaw::Quarter => "a quarter is a number, or a time such as 11:15, from 00:00 to 24:00",
            Flaw::Direction => "a direction is up or down",
            Flaw::Value =>
                "a value is a whole number of Wh or E, with *COUNT after it where it is repeated",
            Flaw::Sequence => "out of sequence: one store, at most one keep, terms, then the calls",
            Flaw::Unreadable => "the file that it names cannot be read",
            Flaw::NoMemory => "the machine gives no memory for it",
        })
    }
}

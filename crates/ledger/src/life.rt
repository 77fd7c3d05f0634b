// A life: a list of calls on a book, and what they answer.
use crate::fault::BookFault;
use crate::records::{Month, Outcome};
use metering::curve::Curve;

// Its numbers are any that may be asked: the call refuses what it has no use for.
#[derive(Drop)]
pub enum Call {
    Register {
        pod: Vec<u8>,
        choice: u8,
        power: u32,
    },
    Enter {
        resource: u32,
        day: u32,
        curve: Curve,
    },
    Drop {
        day: u32,
    },
    Book {
        day: u32,
        q0: u32,
        q1: u32,
        direction: u32,
        qr: u32,
    },
    Declare {
        day: u32,
        q0: u32,
        q1: u32,
    },
    Settle {
        order: u32,
    },
    Month {
        year: u32,
        month: u32,
    },
}

// A settling's evidence is a sheet of 608 words, 19 for each of up to 32 resources, 0 beyond.
#[derive(Clone, Copy)]
pub enum Answer {
    Refused(BookFault),
    Registered(u32),
    Entered,
    Dropped,
    Booked(u32),
    Declared,
    Settled { outcome: Outcome, sheet: [i32; 608] },
    Month(Month),
}

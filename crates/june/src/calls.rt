// The calls of June: a pool of 8 kW that draws 2,000 Wh a quarter, and the order of Tuesday 30 June.
use ledger::life::Call;
use metering::curve::Curve;
use metering::reading::Reading;
use std::alloc::{AllocError, Global};

// 30 June 2026.
const TUESDAY: u32 = 9_677;

// A day of one reading but for the ordered quarters.
fn curve_of(usual: i32, ordered: i32) -> Curve {
    Curve::from_fn(|quarter| match quarter {
        44..48 => Reading::Measured(ordered),
        _ => Reading::Measured(usual),
    })
}

pub fn life_of_june(heap: Global) -> Result<Vec<Call>, AllocError> {
    let mut calls = Vec::new(heap);
    let pod = b"IT001E00000001".to_vec(heap)?;
    calls.push(Call::Register {
        pod,
        choice: 1,
        power: 8,
    })?;
    // from 20 May on
    for day in 9_636..TUESDAY {
        calls.push(Call::Enter {
            resource: 0,
            day,
            curve: curve_of(-2_000, -2_000),
        })?;
    }
    calls.push(Call::Book {
        day: TUESDAY,
        q0: 44,
        q1: 48,
        direction: 0,
        qr: 8,
    })?;
    calls.push(Call::Enter {
        resource: 0,
        day: TUESDAY,
        curve: curve_of(-2_200, -400),
    })?;
    // twelve quarters of Friday 5 June
    calls.push(Call::Declare {
        day: 9_652,
        q0: 40,
        q1: 52,
    })?;
    calls.push(Call::Settle { order: 0 })?;
    calls.push(Call::Month {
        year: 2026,
        month: 6,
    })?;
    Ok(calls)
}

use super::*;
use refusals::{Layer, Refusal};
use rulebooks::{AdditiveAdjustment, Bank, LeadMean, SuppliedRulebook, round_div, unadjusted_mean};
use std::process::Abort;

const UP: u8 = 0;

const DOWN: u8 = 1;

fn asked(choice: u8, direction: u8, s: i64, l: i64, c: i64) -> Question {
    Question {
        choice,
        direction,
        s,
        l,
        c,
    }
}

// A question to the supplied rulebook, and its answer.
type Case = (u8, u8, i64, i64, i64, Result<i64, RuleFault>);

fn each(rt: &impl Abort, cases: &[Case]) {
    let rules = SuppliedRulebook::new();
    for (i, &(choice, direction, s, l, c, answer)) in cases.iter().enumerate() {
        let asked = asked(choice, direction, s, l, c);
        assert_eq!(rt; rules.baseline(asked), answer, "{}", i);
    }
}

#[test]
fn worked_figures(rt: HostRuntime) {
    each(
        &rt,
        &[
            (1, UP, -30_000, -240_000, -17_600, Ok(-2_200)),
            (2, UP, -30_000, -240_000, -17_600, Ok(-2_200)),
            (3, UP, -30_000, -240_000, -17_600, Ok(-2_200)),
            (1, DOWN, -30_000, -240_000, -17_600, Ok(-2_000)),
        ],
    );
}

#[test]
fn ranges(rt: HostRuntime) {
    each(
        &rt,
        &[
            (3, UP, 15_000_000, -120_000_000, 8_000_000, Ok(1_000_000)),
            (
                3,
                DOWN,
                -15_000_000,
                120_000_000,
                -8_000_000,
                Ok(-1_000_000),
            ),
            (3, UP, 15_000_001, 0, 0, Err(RuleFault::OutOfRange)),
            (3, UP, -15_000_001, 0, 0, Err(RuleFault::OutOfRange)),
            (3, UP, 0, 120_000_001, 0, Err(RuleFault::OutOfRange)),
            (3, UP, 0, -120_000_001, 0, Err(RuleFault::OutOfRange)),
            (3, UP, 0, 0, 8_000_001, Err(RuleFault::OutOfRange)),
            (3, UP, 0, 0, -8_000_001, Err(RuleFault::OutOfRange)),
            (3, UP, i64::MIN, 0, 0, Err(RuleFault::OutOfRange)),
            (3, 2, 0, 0, 0, Err(RuleFault::OutOfRange)),
            (3, 255, 0, 0, 0, Err(RuleFault::OutOfRange)),
        ],
    );
}

#[test]
fn refusals_in_turn(rt: HostRuntime) {
    each(
        &rt,
        &[
            (9, 2, 0, 0, 0, Err(RuleFault::OutOfRange)),
            (0, UP, 0, 0, 0, Err(RuleFault::UnknownChoice)),
            (4, UP, 0, 0, 0, Err(RuleFault::UnknownChoice)),
            (255, DOWN, 0, 0, 0, Err(RuleFault::UnknownChoice)),
            (2, UP, 0, 0, 0, Err(RuleFault::NoBaseline)),
        ],
    );
    let none = Refusal::new(24, Layer::Rulebook, 0, 0);
    assert_eq!(rt; RuleFault::NoBaseline.refusal(), none);
}

#[test]
fn additive(rt: HostRuntime) {
    each(
        &rt,
        &[
            (1, DOWN, 15_000_000, -120_000_000, 8_000_000, Ok(3_000_000)),
            (1, UP, 15_000_000, -120_000_000, 8_000_000, Ok(1_000_000)),
            (1, UP, -15_000_000, 120_000_000, -8_000_000, Ok(-3_000_000)),
            // a half, minus a half, minus one and a half
            (1, DOWN, 0, 0, 4, Ok(1)),
            (1, UP, 0, 0, -4, Ok(0)),
            (1, UP, 0, 0, -12, Ok(-1)),
            (1, DOWN, 0, 61, 8, Ok(0)),
            (1, DOWN, 0, 60, 8, Ok(1)),
        ],
    );
}

#[test]
fn ratio(rt: HostRuntime) {
    each(
        &rt,
        &[
            (2, UP, 3, 2, 1, Ok(2)),
            (2, UP, -3, 2, 1, Ok(-1)),
            (2, UP, 3, -2, 1, Ok(-1)),
            (2, DOWN, -3, -2, 1, Ok(2)),
            (2, DOWN, 5, 0, 7, Err(RuleFault::NoBaseline)),
            (2, UP, 10_000_000, 1, 1, Ok(10_000_000)),
            (2, UP, 10_000_000, -1, 1, Ok(-10_000_000)),
            (2, UP, 10_000_001, 1, 1, Err(RuleFault::NoBaseline)),
            (2, UP, 10_000_001, -1, 1, Err(RuleFault::NoBaseline)),
            // a half beyond the limit, to either side
            (2, UP, 6_666_667, 2, 3, Err(RuleFault::NoBaseline)),
            (2, UP, -6_666_667, 2, 3, Ok(-10_000_000)),
            (2, UP, 15_000_000, 120_000_000, 8_000_000, Ok(1_000_000)),
        ],
    );
}

#[test]
fn lead_mean(rt: HostRuntime) {
    each(
        &rt,
        &[
            (3, UP, 0, 0, 4, Ok(1)),
            (3, UP, 0, 0, -4, Ok(0)),
            (3, UP, 0, 0, 12, Ok(2)),
            (3, UP, 0, 0, -12, Ok(-1)),
            (3, DOWN, 0, 0, 3, Ok(0)),
            (3, DOWN, 0, 0, -5, Ok(-1)),
        ],
    );
}

#[test]
fn mean(rt: HostRuntime) {
    let cases = [
        (15_000_000, Ok(1_000_000)),
        (-15_000_000, Ok(-1_000_000)),
        (15_000_001, Err(RuleFault::OutOfRange)),
        (-15_000_001, Err(RuleFault::OutOfRange)),
        (7, Ok(0)),
        (8, Ok(1)),
        (-8, Ok(-1)),
    ];
    for (s, answer) in cases {
        assert_eq!(rt; unadjusted_mean(s), answer, "{}", s);
    }
}

#[test]
fn rounding(rt: HostRuntime) {
    let cases = [
        (1, 2, Some(1)),
        (-1, 2, Some(0)),
        (-3, 2, Some(-1)),
        (7, 1, Some(7)),
        (14_449_999, 100_000, Some(144)),
        (14_450_000, 100_000, Some(145)),
        (1, 0, None),
        (1, -1, None),
        (
            1_000_000_000_000_000_000,
            1,
            Some(1_000_000_000_000_000_000),
        ),
        (1_000_000_000_000_000_001, 1, None),
        (-500_000_000_000_000_000, 1_000_000_000_000_000_000, Some(0)),
        (0, 1_000_000_000_000_000_001, None),
        (i64::MIN, 1, None),
    ];
    for (num, den, answer) in cases {
        assert_eq!(rt; round_div(num, den), answer, "{}", num);
    }
}

#[test]
fn banks(rt: HostRuntime) {
    let wide = Bank::new(Fixed, SuppliedRulebook::new());
    for (choice, days) in [
        (0, None),
        (1, Some(15)),
        (2, Some(15)),
        (3, Some(0)),
        (4, None),
        (255, Some(7)),
    ] {
        assert_eq!(rt; wide.days(choice), days, "{}", choice);
    }
    assert_eq!(rt; wide.baseline(asked(255, UP, 0, 0, 0)), Ok(10_000_000));
    assert_eq!(rt;
        wide.baseline(asked(255, DOWN, 0, 0, 0)),
        Err(RuleFault::NoBaseline)
    );
    assert_eq!(rt; wide.baseline(asked(3, UP, 0, 0, 4)), Ok(1));
    assert_eq!(rt;
        above_baseline(&wide, asked(3, UP, 0, 0, 4), -400),
        Ok(-401)
    );
    let single = Bank::new(LeadMean, AdditiveAdjustment);
    assert_eq!(rt;
        single.baseline(asked(2, UP, 3, 2, 1)),
        Err(RuleFault::UnknownChoice)
    );
}

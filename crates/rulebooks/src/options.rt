// The three rules, each a rulebook of one choice, and the unadjusted mean.
ghost use Rattle.std.specs.Prelude.{◌≡◌, Some};
ghost use Rattle.rulebooks.specs.Options.{mean_answered, adjustment, additive, bounded, ratio, lead_mean};
ghost use Rattle.rulebooks.specs.OptionLaws.{additive_lawful, ratio_lawful, lead_mean_lawful};
ghost use Rattle.rulebooks.specs.Rounding.{Roundable, rounded};
ghost use Rattle.rulebooks.specs.Rules.{InRange};

use crate::formula::Formula;
use crate::question::{Question, S_LIMIT};
use crate::rounding::nearest;
use crate::rule::RuleFault;

// The history days of choices 1 and 2.
const HISTORY_DAYS: u8 = 15;

// The greatest size of a baseline.
const BASELINE_LIMIT: u64 = 10_000_000;

// A quarter's mean over fifteen history days, of the sum of its readings.
pub fn unadjusted_mean(s: i64) -> Result<i64, RuleFault>
    ensures { result ≡ mean_answered s }
{
    if s.unsigned_abs() > S_LIMIT {
        return Err(RuleFault::OutOfRange);
    }
    Ok(nearest(s, 15))
}

// Choice 1: fifteen days; their mean, lowered upward and raised downward by how the lead quarters differ.
#[derive(Clone, Copy)]
pub struct AdditiveAdjustment;

fn adjusted_by(asked: Question) -> i64
    requires { InRange asked.direction asked.s asked.l asked.c }
    ensures { result ≡ adjustment asked.direction asked.l asked.c }
{
    let gap = 15 * asked.c - asked.l;
    if asked.direction == 0 {
        gap.min(0)
    } else {
        gap.max(0)
    }
}

impl Formula for AdditiveAdjustment {
    const CHOICE: u8 = 1;

    const DAYS: u8 = HISTORY_DAYS;

    ghost CHOICE = { 1 };

    ghost DAYS = { 15 };

    ghost value = { λ direction s l c. Some (additive direction s l c) };

    ghost lawful = { additive_lawful };

    fn value(asked: Question) -> Option<i64> {
        Some(nearest(8 * asked.s + adjusted_by(asked), 120))
    }
}

// Choice 2: fifteen days; their sum scaled as the lead quarters of the order's day are to theirs.
#[derive(Clone, Copy)]
pub struct RatioAdjustment;

fn within_limit(num: i64, den: i64) -> Option<i64>
    requires { Roundable num den }
    ensures { result ≡ bounded (rounded num den) }
{
    let z = nearest(num, den);
    (z.unsigned_abs() <= BASELINE_LIMIT).then_some(z)
}

impl Formula for RatioAdjustment {
    const CHOICE: u8 = 2;

    const DAYS: u8 = HISTORY_DAYS;

    ghost CHOICE = { 2 };

    ghost DAYS = { 15 };

    ghost value = { λ direction s l c. ratio s l c };

    ghost lawful = { ratio_lawful };

    fn value(asked: Question) -> Option<i64> {
        let num = asked.s * asked.c;
        if asked.l > 0 {
            within_limit(num, asked.l)
        } else if asked.l < 0 {
            within_limit(-num, -asked.l)
        } else {
            None
        }
    }
}

// Choice 3: no days; the mean of the lead quarters of the order's day.
#[derive(Clone, Copy)]
pub struct LeadMean;

impl Formula for LeadMean {
    const CHOICE: u8 = 3;

    const DAYS: u8 = 0;

    ghost CHOICE = { 3 };

    ghost DAYS = { 0 };

    ghost value = { λ direction s l c. Some (lead_mean c) };

    ghost lawful = { lead_mean_lawful };

    fn value(asked: Question) -> Option<i64> {
        Some(nearest(asked.c, 8))
    }
}

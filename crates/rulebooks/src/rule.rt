// What a rulebook is asked, and how it refuses.
ghost use Rattle.std.specs.Prelude.{◌≡◌};
ghost use Rattle.rulebooks.specs.Faults.{refusal_of};
ghost use Rattle.rulebooks.specs.Rules.{Rules, Lawful, answered, Admits};

use crate::question::Question;
use refusals::{Layer, Refusal};

// A number out of range, a choice that the rulebook does not know, a rule that gives no baseline.
#[derive(Clone, Copy, PartialEq, Eq, Debug)]
pub enum RuleFault {
    OutOfRange,
    UnknownChoice,
    NoBaseline,
}

impl RuleFault {
    pub fn refusal(self) -> Refusal
        ensures { result ≡ refusal_of self }
    {
        let number = match self {
            RuleFault::OutOfRange => 14,
            RuleFault::UnknownChoice => 5,
            RuleFault::NoBaseline => 24,
        };
        Refusal::new(number, Layer::Rulebook, 0, 0)
    }
}

// A rulebook is asked two things and changes by neither.
pub trait Rulebook {
    ghost rules: { Self → Rules };

    // The history days that a choice needs; nothing where the choice is unknown.
    fn days(&self, choice: u8) -> Option<u8>
        ensures { result ≡ (rules self.now).days choice };

    // The adjusted baseline.
    fn baseline(&self, asked: Question) -> Result<i64, RuleFault>
        ensures { result ≡ answered (rules self.now) asked.choice asked.direction asked.s asked.l asked.c };

    ghost lawful: { (b : Self) → Lawful (rules b) };
}

// What every rulebook tests before its rule: the numbers, then that its days are given, so that the choice is known.
pub fn admit(days: Option<u8>, asked: Question) -> Result<(), RuleFault>
    ensures { Admits asked.direction asked.s asked.l asked.c days result }
{
    if asked.is_out_of_range() {
        return Err(RuleFault::OutOfRange);
    }
    if days.is_none() {
        return Err(RuleFault::UnknownChoice);
    }
    Ok(())
}

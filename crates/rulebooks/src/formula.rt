// A rulebook of one choice.
ghost use Rattle.std.specs.Prelude.{◌≡◌, ℕ, ℤ, Option};
ghost use Rattle.rulebooks.specs.Rules.{InRange, Lawful};
ghost use Rattle.rulebooks.specs.Options.{single};

use crate::question::Question;
use crate::rule::{RuleFault, Rulebook, admit};

// A rule under a choice of its own, which is asked only about numbers in range.
pub(crate) trait Formula {
    const CHOICE: u8;

    // The history days that it needs.
    const DAYS: u8;

    ghost CHOICE: { ℕ };

    ghost DAYS: { ℕ };

    ghost value: { ℕ → ℤ → ℤ → ℤ → Option ℤ };

    // Nothing where the rule gives no baseline.
    fn value(asked: Question) -> Option<i64>
        requires { InRange asked.direction asked.s asked.l asked.c }
        ensures { result ≡ value asked.direction asked.s asked.l asked.c };

    ghost lawful: { Lawful (single CHOICE DAYS value) };
}

impl<F: Formula> Rulebook for F {
    ghost rules = { λ _. single F.CHOICE F.DAYS F.value };

    ghost lawful = { λ _. F.lawful };

    fn days(&self, choice: u8) -> Option<u8> {
        (choice == F::CHOICE).then_some(F::DAYS)
    }

    #[tactic(auto, unfolding(crate::specs::Rules::answered))]
    fn baseline(&self, asked: Question) -> Result<i64, RuleFault> {
        admit(self.days(asked.choice), asked)?;
        F::value(asked).ok_or(RuleFault::NoBaseline)
    }
}

// Edges of the rulebooks, run on numbers; a further rulebook, which takes its place in a bank; a caller of any rulebook.
#![tactic(auto)]

ghost use Rattle.std.specs.Prelude.{◌≡◌};
ghost use Rattle.rulebooks_tests.specs.Fixed.{fixed_rules};
ghost use Rattle.rulebooks_tests.specs.Excess.{excess};
ghost use Rattle.rulebooks.specs.Rules.{answered};
ghost use Rattle.std.proofs.Common.{rules};

use rulebooks::{Question, RuleFault, Rulebook, admit};

#[cfg(test)]
mod tests;

// Choice 255: seven days; the greatest baseline upward, none downward.
#[derive(Clone, Copy)]
pub struct Fixed;

impl Rulebook for Fixed {
    ghost rules = { λ _. fixed_rules };

    ghost lawful = { Prim.search rules };

    fn days(&self, choice: u8) -> Option<u8> {
        (choice == 255).then_some(7)
    }

    #[tactic(auto, unfolding(rulebooks::specs::Rules::answered))]
    fn baseline(&self, asked: Question) -> Result<i64, RuleFault> {
        admit(self.days(asked.choice), asked)?;
        if asked.direction == 0 {
            Ok(10_000_000)
        } else {
            Err(RuleFault::NoBaseline)
        }
    }
}

// A reading above the baseline of any rulebook: proved of the trait alone.
pub fn above_baseline<R: Rulebook>(
    rules: &R,
    asked: Question,
    reading: i32,
) -> Result<i64, RuleFault>
    ensures { result ≡ excess reading (answered (R.Rulebook.rules rules.now) asked.choice asked.direction asked.s asked.l asked.c) }
{
    let baseline = rules.baseline(asked)?;
    Ok(i64::from(reading) - baseline)
}

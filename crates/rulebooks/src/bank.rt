// Two rulebooks as one.
ghost use Rattle.std.specs.Prelude.{◌≡◌};
ghost use Rattle.rulebooks.specs.Banks.{joined, BankLaws};
ghost use Rattle.rulebooks.specs.JoinedLaws.{joined_lawful};

use crate::question::Question;
use crate::rule::{RuleFault, Rulebook};

// The first rulebook where it knows the choice, else the second.
#[derive(Drop)]
pub struct Bank<X, Y> {
    first: X,
    second: Y,
}

impl<X, Y> Bank<X, Y> {
    pub fn new(first: X, second: Y) -> Bank<X, Y>
        ensures first { result.first ≡ first }
        ensures second { result.second ≡ second }
        ensures laws { BankLaws }
    {
        Bank { first, second }
    }
}

impl<X: Rulebook, Y: Rulebook> Rulebook for Bank<X, Y> {
    ghost rules = { λ b. joined (X.Rulebook.rules b.first) (Y.Rulebook.rules b.second) };

    ghost lawful = { λ b. joined_lawful (X.Rulebook.rules b.first) (Y.Rulebook.rules b.second) (X.Rulebook.lawful b.first) (Y.Rulebook.lawful b.second) };

    fn days(&self, choice: u8) -> Option<u8> {
        self.first.days(choice).or_else(|| self.second.days(choice))
    }

    #[tactic(auto, unfolding(crate::specs::Rules::answered))]
    fn baseline(&self, asked: Question) -> Result<i64, RuleFault> {
        if self.first.days(asked.choice).is_some() {
            self.first.baseline(asked)
        } else {
            self.second.baseline(asked)
        }
    }
}

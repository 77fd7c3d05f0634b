// The supplied rulebook: a bank of the three rules under choices 1, 2 and 3.
ghost use Rattle.std.specs.Prelude.{◌≡◌};
ghost use Rattle.rulebooks.specs.Supplied.{supplied_rules, SuppliedChoices, MeanGuarantee, FollowsSums};
ghost use Rattle.rulebooks.specs.Figures.{Figures};
ghost use Rattle.rulebooks.specs.SuppliedLaws.{supplied_lawful};

use crate::bank::Bank;
use crate::options::{AdditiveAdjustment, LeadMean, RatioAdjustment};
use crate::question::Question;
use crate::rule::{RuleFault, Rulebook};

#[derive(Drop)]
pub struct SuppliedRulebook {
    bank: Bank<AdditiveAdjustment, Bank<RatioAdjustment, LeadMean>>,
}

impl SuppliedRulebook {
    #[tactic(auto, using(crate::specs::SuppliedLaws::supplied_choices, crate::specs::SuppliedLaws::mean_guarantee, crate::specs::SuppliedLaws::follows_sums, crate::specs::SuppliedLaws::figures))]
    pub fn new() -> SuppliedRulebook
        ensures choices { SuppliedChoices }
        ensures guarantee { MeanGuarantee }
        ensures follows { FollowsSums }
        ensures figures { Figures }
    {
        SuppliedRulebook {
            bank: Bank::new(AdditiveAdjustment, Bank::new(RatioAdjustment, LeadMean)),
        }
    }
}

impl Rulebook for SuppliedRulebook {
    ghost rules = { λ _. supplied_rules };

    ghost lawful = { λ b. supplied_lawful };

    fn days(&self, choice: u8) -> Option<u8> {
        self.bank.days(choice)
    }

    fn baseline(&self, asked: Question) -> Result<i64, RuleFault> {
        self.bank.baseline(asked)
    }
}

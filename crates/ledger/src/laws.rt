// What holds of every life of a book, and the figures that anyone can check by hand.
ghost use Rattle.ledger.specs.Figures.{BookFigures};
ghost use Rattle.ledger.specs.June.{JuneFigures};
ghost use Rattle.ledger.specs.Evident.{History, PayBounded, MonthApart};
ghost use Rattle.ledger.specs.Lives.{TwoLives, Bounds, MeanGuaranteed};

// Whole lives: a pool that goes further in the ordered direction is never paid less; bounds; the unadjusted mean;
// which days stand behind an order; what pay and months keep to.
pub fn laws_stand()
    ensures lives { TwoLives }
    ensures bounds { Bounds }
    ensures mean { MeanGuaranteed }
    ensures history { History }
    ensures pay { PayBounded }
    ensures months { MonthApart }
{}

pub fn figures_stand()
    ensures book { BookFigures }
    ensures june { JuneFigures }
{}

// What a rulebook is asked about one quarter of an order.
ghost use Rattle.std.specs.Prelude.{◌≡◌};
ghost use Rattle.rulebooks.specs.Rules.{out_of_range};

// The greatest sizes of the three sums.
pub(crate) const S_LIMIT: u64 = 15_000_000;

const L_LIMIT: u64 = 120_000_000;

const C_LIMIT: u64 = 8_000_000;

// Any numbers may be asked: those out of range are refused.
#[derive(Clone, Copy, PartialEq, Eq, Debug)]
pub struct Question {
    pub choice: u8,
    // 0 upward, 1 downward.
    pub direction: u8,
    // A quarter's readings over the history days.
    pub s: i64,
    // Those of the eight lead quarters over the same days.
    pub l: i64,
    // The lead readings of the order's day.
    pub c: i64,
}

impl Question {
    pub(crate) fn is_out_of_range(self) -> bool
        ensures { result ≡ out_of_range self.direction self.s self.l self.c }
    {
        self.direction > 1
            || self.s.unsigned_abs() > S_LIMIT
            || self.l.unsigned_abs() > L_LIMIT
            || self.c.unsigned_abs() > C_LIMIT
    }
}

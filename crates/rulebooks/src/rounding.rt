// Fractions rounded to the nearest whole number, an exact half to the greater.
ghost use Rattle.std.specs.Prelude.{◌≡◌};
ghost use Rattle.rulebooks.specs.Rounding.{Roundable, rounded, unroundable, divided, RoundingLaws};

// The largest size of a number that is rounded, so that twice it and more still fits.
const REACH: i64 = 1_000_000_000_000_000_000;

#[tactic(auto, unfolding(crate::specs::Rounding::rounded))]
pub(crate) fn nearest(num: i64, den: i64) -> i64
    requires { Roundable num den }
    ensures { result ≡ rounded num den }
{
    (2 * num + den).div_euclid(2 * den)
}

fn is_unroundable(num: i64, den: i64) -> bool
    ensures { result ≡ unroundable num den }
{
    den < 1 || den > REACH || num.unsigned_abs() > REACH.unsigned_abs()
}

// num / den rounded; nothing where den is not above 0 or a number is out of reach.
#[tactic(auto, using(crate::specs::RoundedLaws::rounding_laws))]
pub fn round_div(num: i64, den: i64) -> Option<i64>
    ensures value { result ≡ divided num den }
    ensures laws { RoundingLaws }
{
    if is_unroundable(num, den) {
        None
    } else {
        Some(nearest(num, den))
    }
}

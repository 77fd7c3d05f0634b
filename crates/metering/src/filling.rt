// A curve from what a closure answers.
ghost use Rattle.std.specs.Prelude.{◌≡◌, List};
ghost use Rattle.std.specs.Array.{index_steps, IsFromFnResult};
ghost use Rattle.std.specs.Iterator.{CallableAtEachTurn};
ghost use Rattle.metering.specs.declared.reading.Reading.{Reading};
ghost use Rattle.metering.specs.Curves.{curve_of};

use crate::curve::Curve;
use crate::reading::Reading;

impl Curve {
    // Each quarter as the closure answers it, in turn; estimated where that is beyond the limits.
    // Inlined, so that a build drops the test of the limits where the closure's answers are known to keep them.
    #[inline(always)]
    pub fn from_fn<F: FnMut(usize) -> Reading>(mut f: F) -> Curve
        requires { CallableAtEachTurn (index_steps 96) (λ p x q. (y : Reading) × F.step p x y q) F.pre 0 f }
        ensures { (readings : List Reading) × IsFromFnResult F.FnMut f readings 96 × (result ≡ curve_of readings) }
    {
        let mut curve = Curve::blank();
        // By number, since the closure is asked for it; over `array::from_fn` the calls of `f` and the limits stay open.
        for q in 0..96 {
            curve.place(q, f(q));
        }
        curve
    }
}

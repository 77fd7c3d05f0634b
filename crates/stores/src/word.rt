// A reading as one 32-bit word: its Wh, or the least such number where it is estimated.
ghost use Rattle.std.specs.Prelude.{◌≡◌};
ghost use Rattle.stores.specs.Words.{word_of, reading_from};

use metering::reading::Reading;

// Functions and no impl of `From`: neither `Reading` nor `i32` is of this crate.
pub(crate) fn word_of(reading: Reading) -> i32
    ensures { result ≡ word_of reading }
{
    match reading {
        Reading::Measured(wh) => wh,
        Reading::Estimated => i32::MIN,
    }
}

pub(crate) fn reading_from(word: i32) -> Reading
    ensures { result ≡ reading_from word }
{
    if word == i32::MIN {
        Reading::Estimated
    } else {
        Reading::Measured(word)
    }
}

// A figure of the line: a number with decimals, as text.
ghost use Rattle.std.specs.Prelude.{◌≡◌, ◌+◌, ◌/◌, ◌^◌, ◌<◌, ◌≤◌, ◌∷◌, ◌++◌, length, drop, decimal};
ghost use Rattle.arrayvec.specs.ArrayVec.{array_vec_len};
ghost use Rattle.ledger.specs.LineText.{last_digits};
ghost use Rattle.monthly.specs.Cells.{places_of, cell};

use arrayvec::ArrayVec;

// Fourteen figures of up to 33 bytes.
pub(crate) const LINE_LIMIT: usize = 462;

pub(crate) type Line = ArrayVec<u8, LINE_LIMIT>;

// How many decimals a figure has.
#[derive(Clone, Copy)]
pub(crate) enum Places {
    Zero = 0,
    Two = 2,
    Three = 3,
    Four = 4,
}

impl Places {
    fn count(self) -> u32
        ensures { result ≡ places_of self }
    {
        self as u32
    }
}

// A figure's text is gathered from its last byte on: what is put stands before `from`, and the answer is where it begins.
// By hand: of a `write!` that answers an error nothing is known, so just when the line is refused could not be told.
fn put(bytes: &mut [u8], from: usize, byte: u8) -> usize
    requires { (0 < from) × (from ≤ length bytes.old) }
    ensures from { result + 1 ≡ from }
    ensures text { drop result bytes.new ≡ byte ∷ drop from bytes.old }
{
    bytes[from - 1] = byte;
    from - 1
}

// The last digits of `n`, and what stands before them in `n`.
fn put_digits(bytes: &mut [u8], from: usize, n: u64, count: usize) -> (usize, u64)
    requires { (count ≤ from) × (from ≤ length bytes.old) }
    ensures from { result.0 + count ≡ from }
    ensures text { drop result.0 bytes.new ≡ last_digits count n ++ drop from bytes.old }
    ensures whole { result.1 ≡ n / 10 ^ count }
{
    let mut start = from;
    let mut whole = n;
    for _k in 0..count {
        start = put(bytes, start, b'0' + (whole % 10) as u8);
        whole /= 10;
    }
    (start, whole)
}

fn put_whole(bytes: &mut [u8], from: usize, n: u64) -> usize
    requires { (20 ≤ from) × (from ≤ length bytes.old) }
    ensures from { result ≤ from }
    ensures text { drop result bytes.new ≡ decimal n ++ drop from bytes.old }
{
    let mut start = from;
    let mut rest = n;
    while rest >= 10 {
        start = put(bytes, start, b'0' + (rest % 10) as u8);
        rest /= 10;
    }
    put(bytes, start, b'0' + rest as u8)
}

// A figure with its decimals, and the byte that ends it.
#[derive(Clone, Copy)]
pub(crate) struct Cell {
    pub(crate) value: u64,
    pub(crate) places: Places,
    pub(crate) end: u8,
}

impl Cell {
    pub(crate) fn push_to(self, line: &mut Line)
        requires { array_vec_len line.old + 33 ≤ LINE_LIMIT }
        ensures text { line.new.items ≡ line.old.items ++ cell self }
        ensures within { array_vec_len line.new ≤ array_vec_len line.old + 33 }
    {
        let mut bytes = [0; 33];
        let count = self.places.count() as usize;
        let end = put(&mut bytes, 33, self.end);
        let (mut from, whole) = put_digits(&mut bytes, end, self.value, count);
        if count > 0 {
            from = put(&mut bytes, from, b',');
        }
        let start = put_whole(&mut bytes, from, whole);
        line.try_extend_from_slice(&bytes[start..]).unwrap();
    }
}

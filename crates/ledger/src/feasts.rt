// The feasts of a contract: up to 32 days, each later than the one before.
ghost use Rattle.std.specs.Prelude.{◌≡◌, ℕ, ◌+◌, ◌<◌, ◌≤◌, length, slice_index};

mod making;

// An array and a count, since terms are `Copy` and an `ArrayVec` is not.
#[derive(Clone, Copy)]
pub struct Feasts {
    // the first `count` of these
    pub days: [u32; 32],
    pub count: usize,
    ghost table: { length days ≡ 32 },
    ghost room: { count ≤ 32 },
    ghost in_range: { (k : ℕ) → k < count → slice_index days k ≤ 36524 },
    ghost rising: { (k : ℕ) → k + 1 < count → slice_index days k < slice_index days (k + 1) },
}

// One resource settled: its contribution in Wh and its evidence row; no evidence where it counts with its power.
#[derive(Clone, Copy)]
pub(crate) struct Settled {
    pub amount: i64,
    pub evidence: Option<[i32; 19]>,
}

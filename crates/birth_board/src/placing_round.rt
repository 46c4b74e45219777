/// What the placing of an update needs besides the cells.
#[derive(Clone, Copy, Debug, PartialEq, Eq)]
pub struct PlacingRound {
    pub seed: u64,
    pub update: u32,
    pub prefer_empty: bool,
    pub next_id: u64,
}

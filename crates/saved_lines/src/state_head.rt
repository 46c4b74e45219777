use mutations::Rates;

/// What a saved world is besides its organisms.
#[derive(Clone, Copy, Debug)]
pub struct StateHead {
    pub width: u32,
    pub height: u32,
    pub update: u32,
    pub next_id: u64,
    pub seed: u64,
    pub average_slices: u32,
    pub death: bool,
    /// The age of death, as a multiple of the genome's length.
    pub age_limit: u32,
    /// The rates of the next update.
    pub rates: Rates,
    pub prefer_empty: bool,
    pub need_alloc: bool,
    pub executed_percent: u32,
    pub copied_percent: u32,
    pub least_length: u32,
    pub greatest_length: u32,
    pub memory_limit: u32,
}

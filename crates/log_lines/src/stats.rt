/// The statistics of an update, taken at its end.
#[derive(Clone, Copy, Debug, PartialEq, Eq)]
pub struct Stats {
    pub update: u32,
    pub living: u64,
    pub births: u64,
    pub deaths: u64,
    pub genotypes: u64,
    pub merit: u64,
    /// How many of the living have done each task, in the order of the tasks.
    pub tasks: [u64; 9],
}

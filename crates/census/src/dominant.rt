use genome::Genome;
use std::alloc::Global;
use std::sync::Arc;

/// The genome that most organisms have, and how many have it.
#[derive(Debug, Drop)]
pub struct Dominant {
    pub count: u64,
    pub genome: Arc<Genome, Global>,
}

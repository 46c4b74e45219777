// What a call of a bank gives.
use genome::Genome;
use std::alloc::Global;
use std::sync::Arc;

/// An interned genome with its number.
///
/// The number is its place among the different genomes of the bank, in order of first interning.
#[derive(Drop)]
pub struct Handle {
    pub number: u64,
    pub genome: Arc<Genome, Global>,
}

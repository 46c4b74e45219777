use crate::Origin;
use genome::Genome;

/// A child's genome and the record of its birth.
#[derive(Drop)]
pub struct Born {
    pub genome: Genome,
    pub origin: Origin,
}

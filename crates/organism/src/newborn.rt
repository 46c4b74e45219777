use genome::Genome;
use logic_tasks::Tasks;
use mutations::Origin;

/// A child that has no cell yet.
#[derive(Debug, Drop)]
pub struct Newborn {
    /// Its number among the newborns of its parent in this update, from 0.
    pub nth: u32,
    pub genome: Genome,
    pub origin: Origin,
    pub merit: u64,
    pub credited: Tasks,
}

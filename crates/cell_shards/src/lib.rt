//! The cells of a world in shards, which threads run.
#![tactic(auto)]

mod body;
mod boxed_organism;
mod delivered;
mod delivering;
mod done;
mod finished;
mod gathering;
mod job;
pub mod laws;
mod lives;
mod looking;
mod pending_birth;
mod pool;
mod round;
mod running;
mod shards;
mod standing;

pub use boxed_organism::BoxedOrganism;
pub use delivered::{Delivered, Deliveries};
pub use finished::{Dead, Finished};
pub use job::{Cells, Job, Slices};
pub use round::Round;
pub use running::{run_all, run_all_beside};
pub use shards::bounds;
pub use standing::{Standing, Standings};

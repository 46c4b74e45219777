//! The world: it is founded, goes through updates with any number of workers, and is saved.
#![tactic(auto)]

mod births;
mod burials;
mod cell_table;
mod events;
mod everyone;
mod first_tree;
mod founding;
mod genotypes;
mod late_tree;
mod lived;
mod lives;
mod loads;
mod pairs;
mod picture;
mod population;
mod resuming;
mod running_world;
mod scene;
mod settings;
mod sharding;
mod state;
mod updating;
mod world;

pub use census::Dominant;
pub use log_lines::Stats;
pub use picture::{WorldPicture, picture_line};
pub use running_world::RunningWorld;
pub use saved_lines::{Resident, StateHead};
pub use state::{Residents, State};
pub use world::World;
pub use world_laws::laws;

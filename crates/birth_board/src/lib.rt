//! Where newborns are placed on the torus.
#![tactic(auto)]

mod around;
mod occupants;
mod parents;
mod placing;
mod placing_round;
mod placings;
mod torus;
mod turns;

pub use around::neighbours;
pub use occupants::Occupants;
pub use parents::{Parents, gather};
pub use placing::Placing;
pub use placing_round::PlacingRound;
pub use placings::Placings;
pub use torus::Torus;
pub use turns::place;

//! Changes of genomes, the record of a birth, and the errors of copying and dividing.
#![tactic(auto)]

mod base;
mod born;
mod change;
mod child;
mod copying;
mod dividing;
mod indels;
pub mod laws;
mod limits;
mod origin;
mod rate_name;
mod rates;
mod site_points;
mod stop;

pub use base::Base;
pub use born::Born;
pub use change::{Change, Changes};
pub use child::{apply, apply_in};
pub use copying::copy_error;
pub use dividing::divide_errors;
pub use limits::Limits;
pub use origin::Origin;
pub use rate_name::RateName;
pub use rates::Rates;
pub use stop::ApplyStop;

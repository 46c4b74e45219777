//! The configuration of a world, read from a TOML document and printed as one.
#![tactic(auto)]

mod config;
mod event;
mod event_forms;
mod event_tables;
mod events;
mod groups;
mod key;
mod key_text;
mod limits;
mod lookup;
mod numbers;
mod printing;
mod rates;
mod reading;
mod stop;
mod unknown;

pub use config::Config;
pub use event::{Event, What};
pub use events::Events;
pub use key::Key;
pub use key_text::KeyText;
pub use limits::{GREATEST_UPDATES, MOST_EVENTS};
pub use printing::print;
pub use reading::read;
pub use stop::ConfigStop;

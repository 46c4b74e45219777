//! A history of pictures: one publisher appends to it, and observers look at its last picture
//! without waiting.
#![tactic(auto)]

mod crossing;
mod history;
mod note;
mod observer;
mod picture;
mod publisher;
mod reading;
mod rule;
mod shown;
mod sight;
mod view;

pub use note::Note;
pub use observer::Observer;
pub use picture::Picture;
pub use publisher::{Publisher, publication};

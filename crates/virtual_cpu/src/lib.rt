//! The heads processor: a machine with its memory, which takes one instruction at a time.
#![tactic(auto)]

mod cpu;
mod cpu_image;
mod cut;
mod heads;
mod instructions;
pub mod laws;
mod operands;
mod places;
mod registers;
mod reserved;
mod sites;
mod stack;
mod step_answer;

pub use cpu::Cpu;
pub use cpu_image::{CpuImage, Letters, Marks};
pub use cut::Cut;
pub use step_answer::StepAnswer;

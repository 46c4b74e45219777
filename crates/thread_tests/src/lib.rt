//! Tests of what threads share, and of what they do side by side.
#![tactic(auto)]

#[cfg(test)]
mod banks;
#[cfg(test)]
mod publications;
#[cfg(test)]
mod worlds;

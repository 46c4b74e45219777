//! Tests of the program from above: shards and a watcher at work side by side, and the world that
//! is left.
#![tactic(auto)]

#[cfg(test)]
mod left_worlds;
#[cfg(test)]
mod served;
#[cfg(test)]
mod watched;

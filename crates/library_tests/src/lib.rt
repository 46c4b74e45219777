//! Tests of the libraries: what no row can say, and the calls that the program doesn't make.
#![tactic(auto)]

#[cfg(test)]
mod boards;
#[cfg(test)]
mod configurations;
#[cfg(test)]
mod divides;
#[cfg(test)]
mod genomes;
#[cfg(test)]
mod kept_trees;
#[cfg(test)]
mod ports;
#[cfg(test)]
mod streams;
#[cfg(test)]
mod tasks;

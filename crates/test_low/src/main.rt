//! Tests of the crates that know no frame and no submission: numbers, names, kernels, lines, reachability, places, bounds, caches, words.
//! The program itself does nothing, and nothing stands on it.
#![tactic(auto)]

#[cfg(test)]
mod base_calls;
#[cfg(test)]
mod base_operations;
#[cfg(test)]
mod bits;
#[cfg(test)]
mod bound;
#[cfg(test)]
mod caches;
#[cfg(test)]
mod caches_plain;
#[cfg(test)]
mod caches_step;
#[cfg(test)]
mod draw;
#[cfg(test)]
mod lanes;
#[cfg(test)]
mod lines;
#[cfg(test)]
mod pixels;
#[cfg(test)]
mod place;
#[cfg(test)]
mod reach;
#[cfg(test)]
mod words;

fn main() {}

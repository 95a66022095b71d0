//! Tests of the one top call over memory forms: command lines that need no device, and ends that fail.
//! The program itself does nothing, and nothing stands on it.
#![tactic(auto)]

#[cfg(test)]
mod calls;
#[cfg(test)]
mod checking;
#[cfg(test)]
mod choosing;
#[cfg(test)]
mod compiling;
#[cfg(test)]
mod ends;
#[cfg(test)]
mod given;
#[cfg(test)]
mod objects;
#[cfg(test)]
mod placing;
#[cfg(test)]
mod tightening;

fn main() {}

//! Tests of both file formats and of printed texts: each member read and written, the first fault of each file, a line of each kind.
//! The program itself does nothing, and nothing stands on it.
#![tactic(auto)]

#[cfg(test)]
mod forms;
#[cfg(test)]
mod framefile;
#[cfg(test)]
mod framefile_texts;
#[cfg(test)]
mod objects;
#[cfg(test)]
mod opforms;
#[cfg(test)]
mod printed;
#[cfg(test)]
mod shapeforms;
#[cfg(test)]
mod subfile;
#[cfg(test)]
mod subfile_items;
#[cfg(test)]
mod subfile_judge;
#[cfg(test)]
mod subfile_texts;
#[cfg(test)]
mod subfile_vectors;

fn main() {}

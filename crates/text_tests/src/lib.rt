//! Tests of the crates of words, texts, images and the outside over their public calls. They stand here and not in those
//! crates, so that these are proved once.
#![tactic(auto)]

#[cfg(test)]
mod calls;
#[cfg(test)]
mod errors;
#[cfg(test)]
mod events;
#[cfg(test)]
mod expecting;
#[cfg(test)]
mod image;
#[cfg(test)]
mod lines;
#[cfg(test)]
mod outside;
#[cfg(test)]
mod records;
#[cfg(test)]
mod registers;
#[cfg(test)]
mod rows;
#[cfg(test)]
mod windows;

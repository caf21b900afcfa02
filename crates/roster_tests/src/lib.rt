//! Tests of texts, rows, files and grants against values that were made outside the program, and of the ports to the
//! outside.
#![tactic(auto)]

#[cfg(test)]
mod acceptors;
#[cfg(test)]
mod clocks;
#[cfg(test)]
mod folders;
#[cfg(test)]
mod grants;
#[cfg(test)]
mod json_texts;
#[cfg(test)]
mod kinds;
#[cfg(test)]
mod rows;
#[cfg(test)]
mod sets;
#[cfg(test)]
mod streams;
#[cfg(test)]
mod texts;
#[cfg(test)]
mod timed_ends;

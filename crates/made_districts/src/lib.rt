//! Districts that are made from a number: the texts of their files.
#![tactic(auto)]

pub mod files;
mod rows;

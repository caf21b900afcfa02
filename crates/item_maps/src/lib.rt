//! Items of a store: finite maps from labels to bodies, one for each area, and what edits make of them.
#![tactic(auto)]

mod item;

pub use item::{Edit, Item};

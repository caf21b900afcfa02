//! Tests of broken references, and of sets and grants that are published one after another over a keeper of which calls
//! fail.
#![tactic(auto)]

#[cfg(test)]
mod publications;
#[cfg(test)]
mod references;
#[cfg(test)]
mod runs;
#[cfg(test)]
mod told;

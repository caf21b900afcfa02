//! Tests of the hub's answers byte by byte, and of what becomes of gradebook writes.
#![tactic(auto)]

#[cfg(test)]
mod district;
#[cfg(test)]
mod replies;
#[cfg(test)]
mod streams;
#[cfg(test)]
mod writes;

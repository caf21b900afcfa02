//! The laws of what requests want.

pub mod laws;

//! The laws of writes under their marks.

pub mod laws;

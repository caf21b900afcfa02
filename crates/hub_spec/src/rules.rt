//! The laws of writes, requests, runs and states.

pub mod laws;

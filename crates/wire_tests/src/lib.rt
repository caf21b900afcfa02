//! Tests of paths and queries, of the causes of replies, and of requests and replies as bytes.
#![tactic(auto)]

#[cfg(test)]
mod paths;
#[cfg(test)]
mod queries;
#[cfg(test)]
mod replies;
#[cfg(test)]
mod requests;

//! Tests of the program's top calls: words, files and replies in, statuses and exact texts out; and a server that
//! threads run.
#![tactic(auto)]

#[cfg(test)]
mod asking;
#[cfg(test)]
mod bytes;
#[cfg(test)]
mod consuming;
#[cfg(test)]
mod differing;
#[cfg(test)]
mod failing;
#[cfg(test)]
mod granting;
#[cfg(test)]
mod lists;
#[cfg(test)]
mod meeting;
#[cfg(test)]
mod outbox;
#[cfg(test)]
mod publishing;
#[cfg(test)]
mod rehearsing;
#[cfg(test)]
mod resources;
#[cfg(test)]
mod runs;
#[cfg(test)]
mod server;
#[cfg(test)]
mod serving;
#[cfg(test)]
mod showing;
#[cfg(test)]
mod words;
#[cfg(test)]
mod writing;

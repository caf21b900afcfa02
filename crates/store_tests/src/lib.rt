//! Tests of the keepers over a database, of a hub and of a copy: what is kept is found again, stores that are broken or
//! cut off, and those in the system's folder.
#![tactic(auto)]

#[cfg(test)]
mod broken;
#[cfg(test)]
mod kept;
#[cfg(test)]
mod laws;
#[cfg(test)]
mod real;
#[cfg(test)]
mod replies;
#[cfg(test)]
mod steps;
#[cfg(test)]
mod stops;
#[cfg(test)]
mod stored;
#[cfg(test)]
mod ten_kinds_items;
#[cfg(test)]
mod words;

//! Tests of the pages of a small district: what paths list, what queries choose and order, what a grant sees, and the
//! links of pages.
#![tactic(auto)]

#[cfg(test)]
mod district;
#[cfg(test)]
mod pages;

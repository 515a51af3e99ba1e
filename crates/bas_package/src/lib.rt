//! The basic package: options, IBOUND, HNOFLO and starting heads.
#![tactic(auto)]

mod basics;

pub use basics::read_bas;

//! Laws of sets of channels: what is kept soundly for each channel tells whether the set has a verdict, and stays sound behind it.
//!
//! They stand in [`laws`], as the contracts of functions that do nothing. The definitions are those of `channel_deps`.
#![tactic(auto)]

pub mod laws;

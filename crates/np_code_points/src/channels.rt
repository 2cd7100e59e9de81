//! Readers and writers that keep in mind whether they failed, and whole inputs and outputs over
//! them.
pub mod input;
pub mod output;
pub mod pieces;
pub mod watched;

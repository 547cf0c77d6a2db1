//! The words of the command line, read as one simple command of `clap`.
#![tactic(auto)]

mod words;

pub use words::{Options, WordsStop, read_words};

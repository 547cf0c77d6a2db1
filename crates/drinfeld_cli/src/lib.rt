//! The program as a function: from the words, the bytes of a script and two sinks to a status.
#![tactic(auto)]

mod fault_line;
pub mod laws;
mod program;
mod status;

pub use program::{run, run_bytes};
pub use sample_script::sample;
pub use status::Status;

//! Reading bytes from a source and writing them to a sink, with faults that are counted.
//!
//! A [`Source`] or a [`Sink`] answers [`Failed`] only where its count of faults rose, so that
//! whoever calls can tell whose fault a failure was.
#![tactic(auto)]

mod fail_source;
mod faults;
mod mem_sink;
mod plain_source;
mod reading;
mod sink;
mod source;
mod std_sink;
mod std_source;
mod writing;

pub use fail_source::FailSource;
pub use faults::Failed;
pub use mem_sink::MemSink;
pub use plain_source::PlainSource;
pub use reading::{ReadStop, read_limited};
pub use sink::Sink;
pub use source::Source;
pub use std_sink::StdSink;
pub use std_source::StdSource;
pub use writing::write_whole;

#[cfg(test)]
mod tests;

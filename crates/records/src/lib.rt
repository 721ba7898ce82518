// Bytes taken apart into records: a two-byte mark starts each, and its sort says how long it is.
#![tactic(auto)]

mod front;
mod reader;

pub use front::{NoRecord, Placed, Record, split};
pub use reader::{Reader, record_at};

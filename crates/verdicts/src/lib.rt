// What given channels say of a sheet's rules, and what a rule leaves of them.
#![tactic(auto)]

mod claim;
mod judged;
mod rules;
mod values;

pub use rules::{left, verdict};
pub use values::{Narrowed, Verdict};

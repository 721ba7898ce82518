// A sheet: the channels that each station may use, and the rules about them.
#![tactic(auto)]

mod form;
mod kinds;
mod valid;

pub use form::{Claim, Fields, Form, Node, Rule, Shape, Slot};
pub use kinds::UnknownKind;
pub use valid::{DEEPEST, MOST_NODES, MOST_RULES, MOST_STATIONS, Sheet};

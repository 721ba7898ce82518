// What a sheet's terms and ranges say of given channels.
#![tactic(auto)]

mod channels;
mod ends;
mod judge;
mod named;
mod node;
mod ranges;
mod sets;
mod terms;
mod values;

pub use channels::sheet_channels;
pub use values::{Domains, Ends, Judge};

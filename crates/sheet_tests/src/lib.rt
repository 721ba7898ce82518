// Tests of reading a sheet, and the rows that tests write their sheets in.
#![tactic(auto)]

#[cfg(test)]
mod accepted;
#[cfg(test)]
mod kinds;
#[cfg(test)]
mod numbered;
#[cfg(test)]
mod printed;
#[cfg(test)]
mod refused;
mod rows;

pub use rows::{Row, bytes_of};

#[cfg(test)]
mod written;

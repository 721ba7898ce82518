// A set of channels as text.
use masks::{CHANNELS, has};
use std::fmt;

// The channels of a set, ascending, with a space before each.
#[derive(Clone, Copy)]
pub(crate) struct Spaced(pub(crate) u64);

impl fmt::Display for Spaced {
    fn fmt<W: fmt::Write>(&self, f: &mut fmt::Formatter<W>) -> fmt::Result {
        for channel in 0..CHANNELS {
            if has(self.0, i64::from(channel)) {
                write!(f, " {channel}")?;
            }
        }
        Ok(())
    }
}

// What the judging of a rule answers.
ghost use Rattle.std.specs.Prelude.{Some};
ghost use Rattle.verdicts.specs.Text.{verdict_text};

use std::fmt;

// What given channels say of a rule: it is sure to hold, it cannot hold, or neither is known.
#[derive(Clone, Copy, Debug, PartialEq, Eq)]
pub enum Verdict {
    Sure,
    Open,
    Broken,
}

// A station and the channels that a rule leaves it.
#[derive(Clone, Copy, Debug, PartialEq, Eq)]
pub struct Narrowed {
    pub station: u8,
    pub channels: u64,
}

impl fmt::Display for Verdict {
    ghost output = { λ verdict. Some (verdict_text verdict) };

    fn fmt<W: fmt::Write>(&self, f: &mut fmt::Formatter<W>) -> fmt::Result {
        f.write_str(match self {
            Verdict::Sure => "sure",
            Verdict::Open => "open",
            Verdict::Broken => "broken",
        })
    }
}

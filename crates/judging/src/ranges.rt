// Which whole numbers are possible in a range, and which are certain, over the channels that are left.
ghost use Rattle.std.specs.Prelude.{◌≡◌, ◌+◌, ◌*◌, ◌^◌, ◌≤◌, false, unsigned_abs};
ghost use Rattle.judging.specs.Judged as judged;
ghost use Rattle.judging.specs.JudgedNodes.{node_depth, node_is_term, node_range};

use crate::node::JudgedNode;
use masks::{has, only};
use sheet::Form;

// Two functions for the two words, since in a complement each asks the other.
impl JudgedNode<'_> {
    // Whether v is possible in the node, which is a range.
    #[cycle(possible_and_certain)]
    pub(crate) fn possible(self, v: i64) -> bool
        requires sort { node_is_term self ≡ false }
        requires near { unsigned_abs v + node_depth self * 268435456000 ≤ 2 ^ 62 }
        ensures { result ≡ judged.possible self.entry.judge.now.domains.now (node_range self.entry) v }
    {
        match self.form() {
            Form::Between(a, b) => {
                self.named(a).ends().least <= v && v <= self.named(b).ends().greatest
            }
            Form::AtLeast(a) => self.named(a).ends().least <= v,
            Form::AtMost(a) => v <= self.named(a).ends().greatest,
            Form::Channels(s) => has(self.judge.domains[usize::from(s)], v),
            Form::Union(a, b) => self.named(a).possible(v) || self.named(b).possible(v),
            Form::Intersection(a, b) => self.named(a).possible(v) && self.named(b).possible(v),
            Form::Complement(a) => !self.named(a).certain(v),
            Form::Shift(a, b) => match self.named(b).ends().fixed() {
                Some(by) => self.named(a).possible(v - by),
                None => true,
            },
            _ => unreachable(),
        }
    }

    // Whether v is certain in the node, which is a range.
    #[cycle(possible_and_certain)]
    pub(crate) fn certain(self, v: i64) -> bool
        requires sort { node_is_term self ≡ false }
        requires near { unsigned_abs v + node_depth self * 268435456000 ≤ 2 ^ 62 }
        ensures { result ≡ judged.certain self.entry.judge.now.domains.now (node_range self.entry) v }
    {
        match self.form() {
            Form::Between(a, b) => {
                self.named(a).ends().greatest <= v && v <= self.named(b).ends().least
            }
            Form::AtLeast(a) => self.named(a).ends().greatest <= v,
            Form::AtMost(a) => v <= self.named(a).ends().least,
            Form::Channels(s) => only(self.judge.domains[usize::from(s)], v),
            Form::Union(a, b) => self.named(a).certain(v) || self.named(b).certain(v),
            Form::Intersection(a, b) => self.named(a).certain(v) && self.named(b).certain(v),
            Form::Complement(a) => !self.named(a).possible(v),
            Form::Shift(a, b) => match self.named(b).ends().fixed() {
                Some(by) => self.named(a).certain(v - by),
                None => false,
            },
            _ => unreachable(),
        }
    }
}

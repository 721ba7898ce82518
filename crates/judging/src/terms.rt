// The least and the greatest value of a term, over the channels that are left.
ghost use Rattle.std.specs.Prelude.{◌≡◌, true};
ghost use Rattle.judging.specs.Bounds.{bound, Bounded};
ghost use Rattle.judging.specs.Judged as judged;
ghost use Rattle.judging.specs.JudgedNodes.{node_depth, node_is_term, node_term};

use crate::node::JudgedNode;
use crate::values::Ends;
use sheet::Form;

impl JudgedNode<'_> {
    // The ends of the node, which is a term.
    pub(crate) fn ends(self) -> Ends
        requires { node_is_term self ≡ true }
        ensures least { result.least ≡ judged.least self.entry.judge.now.domains.now (node_term self.entry) }
        ensures greatest { result.greatest ≡ judged.greatest self.entry.judge.now.domains.now (node_term self.entry) }
        ensures within { Bounded (bound (node_depth self.entry)) result }
    {
        match self.form() {
            Form::Number(k) => Ends::of_number(i64::from(k)),
            Form::Station(s) => Ends::of_channels(self.judge.domains[usize::from(s)]),
            Form::Sum(a, b) => self.named(a).ends().plus(self.named(b).ends()),
            Form::Difference(a, b) => self.named(a).ends().minus(self.named(b).ends()),
            Form::Multiple(k, a) => self.named(a).ends().times(i64::from(k)),
            Form::Quotient(a, k) => self.named(a).ends().quotient(i64::from(k)),
            Form::Remainder(a, k) => self.named(a).ends().remainder(i64::from(k)),
            _ => unreachable(),
        }
    }
}

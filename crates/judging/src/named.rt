// What a node of a judged sheet says, and the nodes that it names.
ghost use Rattle.std.specs.Prelude.{◌≡◌, ◌<◌};
ghost use Rattle.judging.specs.JudgedNodes.{range_saying, term_saying, node_form, node_is_term, Promised, node_range, node_term};

use crate::node::JudgedNode;
use sheet::Form;

impl<'a> JudgedNode<'a> {
    // What the node says.
    pub(crate) fn form(self) -> Form
        ensures value { result ≡ node_form self.entry }
        ensures promised { Promised self.entry result }
        ensures term { node_term self.entry ≡ term_saying self.entry result }
        ensures range { node_range self.entry ≡ range_saying self.entry result }
    {
        self.judge.sheet.nodes[self.number].form
    }

    // Whether the node is a term; the others are ranges.
    pub(crate) fn is_term(self) -> bool
        ensures { result ≡ node_is_term self.entry }
    {
        self.form().is_term()
    }

    // An earlier node, as this one names it.
    pub(crate) fn named(self, number: u8) -> JudgedNode<'a>
        requires { number < self.number }
        ensures judge { result.judge.now ≡ self.entry.judge.now }
        ensures number { result.number ≡ number }
    {
        JudgedNode {
            judge: self.judge,
            number: usize::from(number),
        }
    }
}

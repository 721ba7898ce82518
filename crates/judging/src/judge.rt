// What a sheet's nodes, asked for by number, say of given channels.
ghost use Rattle.std.specs.Prelude.{◌≡◌, IfSome, vec_len, nat_lt};
ghost use Rattle.judging.specs.Answers.{certain_among_on, certain_on, ends_on, possible_among_on, possible_on};
ghost use Rattle.judging.specs.Bounds.{Bounded};
ghost use Rattle.judging.specs.Laws.{JudgingLaws};
ghost use Rattle.judging.specs.JudgedNodes.{Finds, nodes_of};
ghost use Rattle.judging.specs.Nodes.{has_range, has_term};
ghost use Rattle.sheet.specs.Content.{content};

use crate::node::JudgedNode;
use crate::sets::passing;
use crate::values::{Domains, Ends, Judge};

// What asks for possible and for certain comes in two, and shares what it can: `range` and `passing`.
impl<'a> Judge<'a> {
    // The same sheet, judged on other channels.
    pub fn on(self, domains: &'a Domains) -> Judge<'a>
        ensures sheet { result.sheet.now ≡ self.entry.sheet.now }
        ensures domains { result.domains.now ≡ domains.now }
    {
        Judge { domains, ..self }
    }

    // Node `number`, if the sheet has it.
    fn node(&self, number: u8) -> Option<JudgedNode<'_>>
        ensures { Finds (nat_lt number (vec_len self.now.sheet.now.nodes)) self.now number result }
    {
        let number = usize::from(number);
        self.sheet.nodes.get(number)?;
        Some(JudgedNode {
            judge: self,
            number,
        })
    }

    // Node `number`, if the sheet has it and it is a term.
    fn term(&self, number: u8) -> Option<JudgedNode<'_>>
        ensures { Finds (has_term (nodes_of self.now) number) self.now number result }
    {
        self.node(number).filter(|node| node.is_term())
    }

    // Node `number`, if the sheet has it and it is a range.
    fn range(&self, number: u8) -> Option<JudgedNode<'_>>
        ensures { Finds (has_range (nodes_of self.now) number) self.now number result }
    {
        self.node(number).filter(|node| !node.is_term())
    }

    // The ends of node `node`; nothing where the sheet has no such term.
    #[tactic(auto, using(crate::proofs::Laws::sheet_laws, crate::proofs::Limits::within_limits))]
    pub fn ends(self, node: u8) -> Option<Ends>
        ensures value { result ≡ ends_on (content self.entry.sheet.now) self.entry.domains.now node }
        ensures bounded { IfSome result (Bounded 268435456000) }
        ensures laws { JudgingLaws (content self.entry.sheet.now) }
    {
        Some(self.term(node)?.ends())
    }

    // Whether v is possible in range `node`; nothing where the sheet has no such range.
    #[tactic(auto, using(crate::proofs::Laws::sheet_laws, crate::proofs::Limits::shallow))]
    pub fn possible(self, node: u8, v: i32) -> Option<bool>
        ensures value { result ≡ possible_on (content self.entry.sheet.now) self.entry.domains.now node v }
        ensures laws { JudgingLaws (content self.entry.sheet.now) }
    {
        Some(self.range(node)?.possible(i64::from(v)))
    }

    // Whether v is certain in range `node`; nothing where the sheet has no such range.
    #[tactic(auto, using(crate::proofs::Laws::sheet_laws, crate::proofs::Limits::shallow))]
    pub fn certain(self, node: u8, v: i32) -> Option<bool>
        ensures value { result ≡ certain_on (content self.entry.sheet.now) self.entry.domains.now node v }
        ensures laws { JudgingLaws (content self.entry.sheet.now) }
    {
        Some(self.range(node)?.certain(i64::from(v)))
    }

    // The channels of a set that are possible in range `node`; nothing where the sheet has no such range.
    pub fn possible_among(self, node: u8, word: u64) -> Option<u64>
        ensures { result ≡ possible_among_on (content self.entry.sheet.now) self.entry.domains.now node word }
    {
        let range = self.range(node)?;
        Some(passing(word, |c| range.possible(i64::from(c))))
    }

    // The channels of a set that are certain in range `node`; nothing where the sheet has no such range.
    pub fn certain_among(self, node: u8, word: u64) -> Option<u64>
        ensures { result ≡ certain_among_on (content self.entry.sheet.now) self.entry.domains.now node word }
    {
        let range = self.range(node)?;
        Some(passing(word, |c| range.certain(i64::from(c))))
    }
}

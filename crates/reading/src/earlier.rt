// What a record says behind those before it, or what is wrong with it.
ghost use Rattle.std.specs.Prelude.{◌≡◌, ◌&&◌, slice_index_or};
ghost use Rattle.sheet.specs.Kinds.{shape_of};
ghost use Rattle.sheet.specs.Sound.{missing_node, within, there, of_sort, depth_below};
ghost use Rattle.reading.specs.Decoding.{word as word_of, node_fields, number_fits, node_of_kind, node_of_row, rule_of_slots, rule_of_kind};

use faults::Flaw;
use sheet::{Claim, DEEPEST, Fields, Form, Node, Rule, Shape, Slot};

// A station's set of channels.
pub(crate) fn word(part: &[u8; 10]) -> u64
    ensures { result ≡ word_of part.now }
{
    u64::from_be_bytes(*part.last_chunk().unwrap())
}

// The fields of a node's record.
fn node_fields(part: &[u8; 7]) -> Fields
    ensures { result ≡ node_fields part.now }
{
    let [_, _, kind, a, b, high, low] = *part;
    Fields {
        kind,
        a,
        b,
        k: i16::from_be_bytes([high, low]),
    }
}

// A number lies within limits, both included.
fn is_within(least: i16, greatest: i16, k: i16) -> bool
    ensures { result ≡ within least greatest k }
{
    (least..=greatest).contains(&k)
}

// A number lies within -1000 to 1000, and within the limits of its kind.
fn number_fits(row: Shape, k: i16) -> bool
    ensures { result ≡ number_fits row k }
{
    is_within(-1000, 1000, k) && is_within(row.least, row.greatest, k)
}

// What the two bytes of a claim stand for.
const CLAIM: (Slot, Slot) = (Slot::Station, Slot::Range);

// What they stand for where there is no claim.
const NO_CLAIM: (Slot, Slot) = (Slot::Nothing, Slot::Nothing);

// What stands on a sheet before a record: so many stations, and the nodes.
#[derive(Clone, Copy)]
pub(crate) struct Earlier<'a> {
    pub(crate) stations: usize,
    pub(crate) nodes: &'a [Node],
}

impl Earlier<'_> {
    // What a byte names is there; a byte that names nothing is 0.
    fn has(&self, slot: Slot, v: u8) -> bool
        ensures { result ≡ there self.now.stations self.now.nodes.now slot v }
    {
        match slot {
            Slot::Nothing => v == 0,
            Slot::Station => usize::from(v) < self.stations,
            Slot::Term | Slot::Range => usize::from(v) < self.nodes.len(),
        }
    }

    // What the two bytes of a claim name is there.
    fn has_claim(&self, slots: (Slot, Slot), claim: Claim) -> bool
        ensures { result ≡ (there self.now.stations self.now.nodes.now slots.0 claim.station && there self.now.stations self.now.nodes.now slots.1 claim.range) }
    {
        self.has(slots.0, claim.station) && self.has(slots.1, claim.range)
    }

    // The node of a number; the number 0 stands in where there is none.
    fn node_at(&self, v: u8) -> Node
        ensures { result ≡ slice_index_or self.now.nodes.now v missing_node }
    {
        self.nodes.get(usize::from(v)).copied().unwrap_or(Node {
            form: Form::Number(0),
            depth: 0,
        })
    }

    // What a byte names is of the sort wanted.
    fn is_of_sort(&self, slot: Slot, v: u8) -> bool
        ensures { result ≡ of_sort self.now.nodes.now slot v }
    {
        match slot {
            Slot::Nothing | Slot::Station => true,
            Slot::Term => self.node_at(v).form.is_term(),
            Slot::Range => !self.node_at(v).form.is_term(),
        }
    }

    // How deep what a byte names goes.
    fn depth_below(&self, slot: Slot, v: u8) -> u8
        ensures { result ≡ depth_below self.now.nodes.now slot v }
    {
        match slot {
            Slot::Nothing | Slot::Station => 0,
            Slot::Term | Slot::Range => self.node_at(v).depth,
        }
    }

    // A node of a known kind; it is one deeper than the deepest node that it names.
    fn node_of_form(&self, form: Form, fields: Fields) -> Result<Node, Flaw>
        ensures { result ≡ node_of_row self.now.stations self.now.nodes.now form (shape_of form) fields }
    {
        let row = form.shape();
        if !number_fits(row, fields.k) {
            return Err(Flaw::NumberOutside);
        }
        if !(self.has(row.a, fields.a) && self.has(row.b, fields.b)) {
            return Err(Flaw::NotThere);
        }
        if !(self.is_of_sort(row.a, fields.a) && self.is_of_sort(row.b, fields.b)) {
            return Err(Flaw::WrongSort);
        }
        let below = self
            .depth_below(row.a, fields.a)
            .max(self.depth_below(row.b, fields.b));
        if below >= DEEPEST {
            return Err(Flaw::TooDeep);
        }
        Ok(Node {
            form,
            depth: below + 1,
        })
    }

    // A node by its record.
    pub(crate) fn node(&self, part: &[u8; 7]) -> Result<Node, Flaw>
        ensures { result ≡ node_of_kind self.now.stations self.now.nodes.now part.now }
    {
        let fields = node_fields(part);
        let form = Form::try_from(fields).map_err(|_| Flaw::UnknownKind)?;
        self.node_of_form(form, fields)
    }

    // A rule whose first claim is a station and a range, and whose second claim's bytes stand for what is given.
    fn rule_of_slots(
        &self,
        first: Claim,
        slots: (Slot, Slot),
        second: Claim,
        rule: Rule,
    ) -> Result<Rule, Flaw>
        ensures { result ≡ rule_of_slots self.now.stations self.now.nodes.now first slots.0 slots.1 second rule }
    {
        if !(self.has_claim(CLAIM, first) && self.has_claim(slots, second)) {
            return Err(Flaw::NotThere);
        }
        if !(self.is_of_sort(Slot::Range, first.range) && self.is_of_sort(slots.1, second.range)) {
            return Err(Flaw::WrongSort);
        }
        Ok(rule)
    }

    // A rule by its record, behind all nodes.
    pub(crate) fn rule(&self, part: &[u8; 7]) -> Result<Rule, Flaw>
        ensures { result ≡ rule_of_kind self.now.stations self.now.nodes.now part.now }
    {
        let [_, _, kind, station, range, second_station, second_range] = *part;
        let first = Claim { station, range };
        let second = Claim {
            station: second_station,
            range: second_range,
        };
        match kind {
            0 => self.rule_of_slots(first, NO_CLAIM, second, Rule::Plain(first)),
            1 => self.rule_of_slots(first, CLAIM, second, Rule::Conditional(first, second)),
            _ => Err(Flaw::UnknownKind),
        }
    }
}

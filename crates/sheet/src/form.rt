// What a node or a rule says, one case a kind.

// A node by its kind. Terms name nodes that are terms, ranges name terms or ranges; a node is named by its number.
#[derive(Clone, Copy, Debug, PartialEq, Eq)]
pub enum Form {
    // terms
    Number(i16),
    Station(u8),
    Sum(u8, u8),
    Difference(u8, u8),
    Multiple(i16, u8),
    Quotient(u8, i16),
    Remainder(u8, i16),
    // ranges
    Between(u8, u8),
    AtLeast(u8),
    AtMost(u8),
    Channels(u8),
    Union(u8, u8),
    Intersection(u8, u8),
    Complement(u8),
    Shift(u8, u8),
}

// A node of a sheet: what it says, and how deep the nodes below it go (1 where it names none).
#[derive(Clone, Copy, Debug, PartialEq, Eq)]
pub struct Node {
    pub form: Form,
    pub depth: u8,
}

// A station and a range, by the range's node number.
#[derive(Clone, Copy, Debug, PartialEq, Eq)]
pub struct Claim {
    pub station: u8,
    pub range: u8,
}

// A plain rule makes one claim; a conditional one makes its consequence where its condition holds.
#[derive(Clone, Copy, Debug, PartialEq, Eq)]
pub enum Rule {
    Plain(Claim),
    Conditional(Claim, Claim),
}

// What a byte of a record stands for: nothing (it has to be 0), a station, a term's node or a range's.
// That it has to be 0 is asked of it like the rest, so it is a case, and no `Option` round the others.
#[derive(Clone, Copy, Debug, PartialEq, Eq)]
pub enum Slot {
    Nothing,
    Station,
    Term,
    Range,
}

// The row of a kind in the table of kinds: what its two bytes stand for, and the limits of its number.
#[derive(Clone, Copy, Debug, PartialEq, Eq)]
pub struct Shape {
    pub a: Slot,
    pub b: Slot,
    pub least: i16,
    pub greatest: i16,
}

// The fields of a node's record: its kind, as the number that stands there, two bytes and a number.
#[derive(Clone, Copy, Debug, PartialEq, Eq)]
pub struct Fields {
    pub kind: u8,
    pub a: u8,
    pub b: u8,
    pub k: i16,
}

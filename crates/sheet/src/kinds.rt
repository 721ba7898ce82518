// The table of kinds: which node a record's fields are, and which fields a node has.
ghost use Rattle.std.specs.Prelude.{◌≡◌, Some, pos};
ghost use Rattle.sheet.specs.Kinds.{known_form, fields_of, is_term, shape_of, unknown_text};

use crate::form::{Fields, Form, Shape, Slot};
use std::error::Error;
use std::fmt;

impl Shape {
    // A kind without a number: it has to be 0.
    fn plain(a: Slot, b: Slot) -> Shape
        ensures { result ≡ record { a = a; b = b; least = pos 0; greatest = pos 0 } }
    {
        Shape {
            a,
            b,
            least: 0,
            greatest: 0,
        }
    }
}

// The number of no kind of node.
#[derive(Clone, Copy, Debug, PartialEq, Eq)]
pub struct UnknownKind(pub u8);

impl fmt::Display for UnknownKind {
    ghost output = { λ unknown. Some (unknown_text unknown) };

    fn fmt<W: fmt::Write>(&self, f: &mut fmt::Formatter<W>) -> fmt::Result {
        write!(f, "no kind of node has the number {}", self.0)
    }
}

impl Error for UnknownKind {}

// The node whose record has these fields, if its kind is known.
impl TryFrom<Fields> for Form {
    type Error = UnknownKind;

    ghost try_from_gives = { λ fields result. result ≡ known_form fields };

    fn try_from(fields: Fields) -> Result<Form, UnknownKind> {
        let Fields { kind, a, b, k } = fields;
        Ok(match kind {
            0 => Form::Number(k),
            1 => Form::Station(a),
            2 => Form::Sum(a, b),
            3 => Form::Difference(a, b),
            4 => Form::Multiple(k, a),
            5 => Form::Quotient(a, k),
            6 => Form::Remainder(a, k),
            16 => Form::Between(a, b),
            17 => Form::AtLeast(a),
            18 => Form::AtMost(a),
            19 => Form::Channels(a),
            20 => Form::Union(a, b),
            21 => Form::Intersection(a, b),
            22 => Form::Complement(a),
            23 => Form::Shift(a, b),
            _ => return Err(UnknownKind(kind)),
        })
    }
}

// The fields of a node's record.
impl From<Form> for Fields {
    ghost from_gives = { λ form fields. fields ≡ fields_of form };

    fn from(form: Form) -> Fields {
        let (kind, a, b, k) = match form {
            Form::Number(k) => (0, 0, 0, k),
            Form::Station(a) => (1, a, 0, 0),
            Form::Sum(a, b) => (2, a, b, 0),
            Form::Difference(a, b) => (3, a, b, 0),
            Form::Multiple(k, a) => (4, a, 0, k),
            Form::Quotient(a, k) => (5, a, 0, k),
            Form::Remainder(a, k) => (6, a, 0, k),
            Form::Between(a, b) => (16, a, b, 0),
            Form::AtLeast(a) => (17, a, 0, 0),
            Form::AtMost(a) => (18, a, 0, 0),
            Form::Channels(a) => (19, a, 0, 0),
            Form::Union(a, b) => (20, a, b, 0),
            Form::Intersection(a, b) => (21, a, b, 0),
            Form::Complement(a) => (22, a, 0, 0),
            Form::Shift(a, b) => (23, a, b, 0),
        };
        Fields { kind, a, b, k }
    }
}

impl Form {
    // Whether the node is a term; the others are ranges.
    pub fn is_term(&self) -> bool
        ensures { result ≡ is_term self.now }
    {
        matches!(
            self,
            Form::Number(_)
                | Form::Station(_)
                | Form::Sum(..)
                | Form::Difference(..)
                | Form::Multiple(..)
                | Form::Quotient(..)
                | Form::Remainder(..)
        )
    }

    // The node's row in the table.
    pub fn shape(&self) -> Shape
        ensures { result ≡ shape_of self.now }
    {
        match self {
            Form::Number(_) => Shape {
                least: -1000,
                greatest: 1000,
                ..Shape::plain(Slot::Nothing, Slot::Nothing)
            },
            Form::Multiple(..) => Shape {
                least: -16,
                greatest: 16,
                ..Shape::plain(Slot::Term, Slot::Nothing)
            },
            Form::Quotient(..) | Form::Remainder(..) => Shape {
                least: 1,
                greatest: 64,
                ..Shape::plain(Slot::Term, Slot::Nothing)
            },
            Form::Station(_) | Form::Channels(_) => Shape::plain(Slot::Station, Slot::Nothing),
            Form::Sum(..) | Form::Difference(..) | Form::Between(..) => Shape::plain(
                Slot::Term,
                Slot::Term,
            ),
            Form::AtLeast(_) | Form::AtMost(_) => Shape::plain(Slot::Term, Slot::Nothing),
            Form::Union(..) | Form::Intersection(..) => Shape::plain(Slot::Range, Slot::Range),
            Form::Complement(_) => Shape::plain(Slot::Range, Slot::Nothing),
            Form::Shift(..) => Shape::plain(Slot::Range, Slot::Term),
        }
    }
}

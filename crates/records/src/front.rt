// A record, and the one at the front of some bytes.
ghost use Rattle.std.specs.Prelude.{◌≡◌};
ghost use Rattle.records.specs.Records.{front, part, seen, size};

use faults::Place;

// A record as a part of the caller's bytes, mark included.
#[derive(Clone, Copy, Debug, PartialEq, Eq)]
pub enum Record<'a> {
    Station(&'a [u8; 10]),
    Node(&'a [u8; 7]),
    Rule(&'a [u8; 7]),
}

impl Record<'_> {
    // How many bytes the record has, its mark included.
    pub(crate) fn len(&self) -> usize
        ensures { result ≡ size (part self.now).sort }
    {
        match self {
            Record::Station(part) => part.len(),
            Record::Node(part) | Record::Rule(part) => part.len(),
        }
    }
}

// A record, whose case is its sort, and where it stands.
#[derive(Clone, Copy, Debug, PartialEq, Eq)]
pub struct Placed<'a> {
    pub record: Record<'a>,
    pub place: Place,
}

// Why no record stands at the front of some bytes.
#[derive(Clone, Copy, Debug, PartialEq, Eq)]
pub enum NoRecord {
    End,
    Cut,
    UnknownMark,
}

// The record at the front of some bytes and the rest, or why there is none.
#[tactic(auto, using(std::proofs::lemmas::List::take_rest, std::proofs::lemmas::Bool::Decides::nat_tests), unfolding(crate::specs::Records::front))]
pub fn split(bytes: &[u8]) -> Result<(Record<'_>, &[u8]), NoRecord>
    ensures { seen result ≡ front bytes.now }
{
    match bytes {
        [] => Err(NoRecord::End),
        [b'S', b'T', _, _, _, _, _, _, _, _, rest @ ..] => {
            Ok((Record::Station(bytes.first_chunk().unwrap()), rest))
        }
        [b'N', b'D', _, _, _, _, _, rest @ ..] => {
            Ok((Record::Node(bytes.first_chunk().unwrap()), rest))
        }
        [b'R', b'U', _, _, _, _, _, rest @ ..] => {
            Ok((Record::Rule(bytes.first_chunk().unwrap()), rest))
        }
        [_] | [b'S', b'T', ..] | [b'N', b'D', ..] | [b'R', b'U', ..] => Err(NoRecord::Cut),
        [_, _, ..] => Err(NoRecord::UnknownMark),
    }
}

// Records handed out one at a time, each with its place.
ghost use Rattle.std.specs.Prelude.{◌≡◌, ◌+◌, ◌^◌, ◌<◌, ◌≤◌, Err, length, ◌==◌};
ghost use Rattle.std.specs.Iterator.{at_most};
ghost use Rattle.records.specs.Records.{front, seen};
ghost use Rattle.records.specs.Handed.{start, handed, offered, rest_of, next_place, found, nth_record};

use crate::front::{NoRecord, Placed, Record, split};
use faults::{BytesFault, Place};

impl NoRecord {
    // The fault that is told at a place; at the end of the bytes a record is cut off.
    fn at(self, place: Place) -> BytesFault
        ensures { Err result ≡ offered place (seen (Err self)) }
    {
        match self {
            NoRecord::End | NoRecord::Cut => BytesFault::Cut(place),
            NoRecord::UnknownMark => BytesFault::UnknownMark(place),
        }
    }
}

// What is left of some bytes, and the place of the next record.
#[derive(Clone, Copy)]
pub struct Reader<'a> {
    pub rest: &'a [u8],
    pub place: Place,
    ghost within: { place.byte + length rest.now < 2 ^ 64 },
    ghost counted: { place.«record» ≤ place.byte },
}

impl<'a> Reader<'a> {
    pub fn new(bytes: &'a [u8]) -> Reader<'a>
        ensures rest { result.rest.now ≡ bytes.now }
        ensures place { result.place ≡ start }
    {
        Reader {
            rest: bytes,
            place: Place { record: 0, byte: 0 },
        }
    }

    pub fn is_at_end(&self) -> bool
        ensures { result ≡ (length self.now.rest.now == 0) }
    {
        self.rest.is_empty()
    }

    // The next record; at the end of the bytes there is none, and it is cut off.
    #[tactic(auto, using(crate::proofs::Fronts::length_next))]
    pub fn next_record(&mut self) -> Result<Placed<'a>, BytesFault>
        ensures value { handed result ≡ offered self.old.place (front self.old.rest.now) }
        ensures rest { self.new.rest.now ≡ rest_of self.old.rest.now (front self.old.rest.now) }
        ensures place { self.new.place ≡ next_place self.old.place (front self.old.rest.now) }
    {
        let place = self.place;
        let (record, rest) = split(self.rest).map_err(|none| none.at(place))?;
        *self = Reader {
            rest,
            place: Place {
                byte: place.byte + record.len(),
                record: place.record + 1,
            },
        };
        Ok(Placed { record, place })
    }
}

// The records one after another, up to the end of the bytes, a cut or an unknown mark.
impl<'a> Iterator for Reader<'a> {
    ghost use Rattle.records.specs.Hands.{Hands};

    type Item = Placed<'a>;

    ghost next_gives = { Hands };

    ghost remaining = { λ s. at_most (length s.rest.now) };

    fn next(&mut self) -> Option<Placed<'a>> {
        self.next_record().ok()
    }
}

// Record i of any bytes, with its place; nothing where their end, a cut or an unknown mark comes first.
pub fn record_at(bytes: &[u8], number: usize) -> Option<Placed<'_>>
    ensures { found result ≡ nth_record number bytes.now }
{
    Reader::new(bytes).nth(number)
}

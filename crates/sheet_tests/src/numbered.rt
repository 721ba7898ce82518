// Records asked for by number, of any bytes: only marks and lengths are looked at.
use faults::Place;
use records::{Placed, Reader, Record, record_at};
use std::test::Fail;

// A record and its first byte.
type Found = (Record<'static>, usize);

// Some bytes, a record's number, and the record that is found.
type Case = (&'static [u8], usize, Option<Found>);

const SOUND: &[u8] = b"ST\0\0\0\0\0\0\0\x0fND\x13\0\0\0\0RU\0\0\0\0\0";

// A rule, a station without channels and a node of no kind: three whole records, and no sheet.
const NO_SHEET: &[u8] = b"RU\x09\x09\x09\x09\x09ST\0\0\0\0\0\0\0\0ND\xff\x01\x02\x03\x04";

// The second record is cut by a byte.
const CUT: &[u8] = b"ST\0\0\0\0\0\0\0\x0fND\x13\0\0\0";

// The second record has an unknown mark; a whole one follows.
const UNKNOWN: &[u8] = b"ST\0\0\0\0\0\0\0\x0fAA\0\0\0\0\0ND\0\0\0\0\0";

static CASES: [Case; 17] = [
    (
        SOUND,
        0,
        Some((Record::Station(b"ST\0\0\0\0\0\0\0\x0f"), 0)),
    ),
    (SOUND, 1, Some((Record::Node(b"ND\x13\0\0\0\0"), 10))),
    (SOUND, 2, Some((Record::Rule(b"RU\0\0\0\0\0"), 17))),
    // past the end
    (SOUND, 3, None),
    (SOUND, 18446744073709551615, None),
    (
        NO_SHEET,
        0,
        Some((Record::Rule(b"RU\x09\x09\x09\x09\x09"), 0)),
    ),
    (
        NO_SHEET,
        1,
        Some((Record::Station(b"ST\0\0\0\0\0\0\0\0"), 7)),
    ),
    (
        NO_SHEET,
        2,
        Some((Record::Node(b"ND\xff\x01\x02\x03\x04"), 17)),
    ),
    (NO_SHEET, 3, None),
    (CUT, 0, Some((Record::Station(b"ST\0\0\0\0\0\0\0\x0f"), 0))),
    (CUT, 1, None),
    (
        UNKNOWN,
        0,
        Some((Record::Station(b"ST\0\0\0\0\0\0\0\x0f"), 0)),
    ),
    (UNKNOWN, 1, None),
    // nothing is found behind an unknown mark
    (UNKNOWN, 2, None),
    (b"", 0, None),
    (b"S", 0, None),
    (b"AA", 0, None),
];

// The record of a number.
fn placed(number: usize, found: Found) -> Placed<'static> {
    let (record, byte) = found;
    let place = Place {
        record: number,
        byte,
    };
    Placed { record, place }
}

#[test]
fn record_by_number(rt: HostRuntime) -> Result<(), Fail> {
    for (i, case) in CASES.iter().enumerate() {
        let (bytes, number, found) = *case;
        let wanted = found.map(|found| placed(number, found));
        assert_eq!(rt; record_at(bytes, number), wanted, "case {i}");
    }
    Ok(())
}

// Some bytes, and the records that a reader goes through, with their first bytes.
type Run = (&'static [u8], &'static [Found]);

static RUNS: [Run; 5] = [
    (
        NO_SHEET,
        &[
            (Record::Rule(b"RU\x09\x09\x09\x09\x09"), 0),
            (Record::Station(b"ST\0\0\0\0\0\0\0\0"), 7),
            (Record::Node(b"ND\xff\x01\x02\x03\x04"), 17),
        ],
    ),
    // up to a cut, up to an unknown mark, and of no bytes
    (CUT, &[(Record::Station(b"ST\0\0\0\0\0\0\0\x0f"), 0)]),
    (UNKNOWN, &[(Record::Station(b"ST\0\0\0\0\0\0\0\x0f"), 0)]),
    (b"AA", &[]),
    (b"", &[]),
];

#[test]
fn records_one_after_another(rt: HostRuntime) -> Result<(), Fail> {
    for (i, (bytes, found)) in RUNS.iter().enumerate() {
        assert_eq!(rt; Reader::new(bytes).count(), found.len(), "run {i}");
        for (number, (given, wanted)) in Reader::new(bytes).zip(*found).enumerate() {
            assert_eq!(rt; given, placed(number, *wanted), "run {i} record {number}");
        }
    }
    Ok(())
}

// Sheets that are refused: with which number, at which layer, record and byte.
// A station's record has 10 bytes, a node's and a rule's 7, so a record's first byte is 10 for each station before it and 7 for each other record.
use crate::rows::Row::{Again, Nd, Raw, Ru, St};
use crate::rows::{Row, bytes_of};
use faults::Layer::{Bytes, Sheet};
use faults::{Layer, Place, Told};
use reading::read;
use std::alloc::Global;
use std::process::Abort;
use std::test::Fail;

// Some rows, and the number, layer, record and byte that they are refused with.
type Case = (&'static [Row], (u8, Layer, usize, usize));

// What a fault is told as with the number, layer, record and byte.
fn told(wanted: (u8, Layer, usize, usize)) -> Told {
    let (number, layer, record, byte) = wanted;
    let place = Some(Place { record, byte });
    Told {
        number,
        layer,
        place,
    }
}

// What the bytes are refused with; nothing where they are accepted.
fn refusal(heap: Global, bytes: &[u8]) -> Option<Told> {
    read(heap, bytes).err().map(|fault| fault.told())
}

fn are_refused(rt: &impl Abort, heap: Global, cases: &[Case]) -> Result<(), Fail> {
    for (i, case) in cases.iter().enumerate() {
        let bytes = bytes_of(heap, case.0)?;
        assert_eq!(rt;
            refusal(heap, bytes.as_slice()),
            Some(told(case.1)),
            "case {i}"
        );
    }
    Ok(())
}

// Each fault by itself.
static SINGLE: [Case; 54] = [
    // a record cut off: fewer than two bytes, or fewer than its sort has
    (&[Raw(b"S")], (1, Bytes, 0, 0)),
    (&[Raw(b"A")], (1, Bytes, 0, 0)),
    (&[Raw(b"ST")], (1, Bytes, 0, 0)),
    (&[Raw(b"ST\0\0\0\0\0\0\x01")], (1, Bytes, 0, 0)),
    (&[St(1), Raw(b"N")], (1, Bytes, 1, 10)),
    (&[St(1), Raw(b"ND\0\0\0\0")], (1, Bytes, 1, 10)),
    (
        &[St(1), Nd(0, 0, 0, 0), Raw(b"RU\0\0\0\0")],
        (1, Bytes, 2, 17),
    ),
    // an unknown mark: other letters, lower case, the marks' letters mixed
    (&[Raw(b"AA")], (2, Bytes, 0, 0)),
    (&[Raw(b"st\0\0\0\0\0\0\0\x01")], (2, Bytes, 0, 0)),
    (&[St(1), Raw(b"SD\0\0\0\0\0\0\0\x01")], (2, Bytes, 1, 10)),
    (&[St(1), Raw(b"NU\0\0\0\0\0")], (2, Bytes, 1, 10)),
    (
        &[St(1), Nd(0, 0, 0, 0), Raw(b"RT\0\0\0\0\0")],
        (2, Bytes, 2, 17),
    ),
    // sorts out of order
    (&[St(1), Nd(0, 0, 0, 0), St(1)], (3, Sheet, 2, 17)),
    (
        &[St(1), Nd(19, 0, 0, 0), Ru(0, 0, 0, 0, 0), St(1)],
        (3, Sheet, 3, 24),
    ),
    (
        &[St(1), Nd(19, 0, 0, 0), Ru(0, 0, 0, 0, 0), Nd(0, 0, 0, 0)],
        (3, Sheet, 3, 24),
    ),
    // one record too many: 33 stations, 256 nodes, 256 rules
    (&[St(1), Again(32)], (4, Sheet, 32, 320)),
    (&[St(1), Nd(0, 0, 0, 0), Again(255)], (4, Sheet, 256, 1795)),
    (
        &[St(1), Nd(19, 0, 0, 0), Ru(0, 0, 0, 0, 0), Again(255)],
        (4, Sheet, 257, 1802),
    ),
    // a station without a channel
    (&[St(0)], (5, Sheet, 0, 0)),
    (&[St(1), St(0)], (5, Sheet, 1, 10)),
    // an unknown kind of node or rule
    (&[St(1), Nd(7, 0, 0, 0)], (6, Sheet, 1, 10)),
    (&[St(1), Nd(15, 0, 0, 0)], (6, Sheet, 1, 10)),
    (&[St(1), Nd(24, 0, 0, 0)], (6, Sheet, 1, 10)),
    (&[St(1), Nd(255, 0, 0, 0)], (6, Sheet, 1, 10)),
    (
        &[St(1), Nd(19, 0, 0, 0), Ru(2, 0, 0, 0, 0)],
        (6, Sheet, 2, 17),
    ),
    (
        &[St(1), Nd(19, 0, 0, 0), Ru(255, 0, 0, 0, 0)],
        (6, Sheet, 2, 17),
    ),
    // a node that names a station that is not there
    (&[St(1), Nd(1, 1, 0, 0)], (8, Sheet, 1, 10)),
    (&[St(1), Nd(19, 1, 0, 0)], (8, Sheet, 1, 10)),
    // a node that names itself, as a and as b, or a later node
    (&[St(1), Nd(4, 0, 0, 1)], (8, Sheet, 1, 10)),
    (&[St(1), Nd(0, 0, 0, 0), Nd(2, 0, 1, 0)], (8, Sheet, 2, 17)),
    (&[St(1), Nd(17, 1, 0, 0), Nd(0, 0, 0, 0)], (8, Sheet, 1, 10)),
    // a byte of a node that has to be 0
    (&[St(1), Nd(0, 1, 0, 0)], (8, Sheet, 1, 10)),
    (&[St(1), Nd(0, 0, 1, 0)], (8, Sheet, 1, 10)),
    (&[St(1), Nd(1, 0, 1, 0)], (8, Sheet, 1, 10)),
    (
        &[St(1), Nd(19, 0, 0, 0), Nd(22, 0, 1, 0)],
        (8, Sheet, 2, 17),
    ),
    // a rule whose station, node, second station or second node is not there
    (
        &[St(1), Nd(19, 0, 0, 0), Ru(0, 1, 0, 0, 0)],
        (8, Sheet, 2, 17),
    ),
    (
        &[St(1), Nd(19, 0, 0, 0), Ru(0, 0, 1, 0, 0)],
        (8, Sheet, 2, 17),
    ),
    (
        &[St(1), Nd(19, 0, 0, 0), Ru(1, 0, 0, 1, 0)],
        (8, Sheet, 2, 17),
    ),
    (
        &[St(1), Nd(19, 0, 0, 0), Ru(1, 0, 0, 0, 1)],
        (8, Sheet, 2, 17),
    ),
    // a plain rule whose last two bytes are not 0, though there is such a station or node
    (
        &[St(1), St(1), Nd(19, 0, 0, 0), Ru(0, 0, 0, 1, 0)],
        (8, Sheet, 3, 27),
    ),
    (
        &[St(1), Nd(19, 0, 0, 0), Nd(22, 0, 0, 0), Ru(0, 0, 0, 0, 1)],
        (8, Sheet, 3, 24),
    ),
    // a term for a range, and a range for a term
    (&[St(1), Nd(0, 0, 0, 0), Nd(22, 0, 0, 0)], (9, Sheet, 2, 17)),
    (
        &[St(1), Nd(19, 0, 0, 0), Nd(17, 0, 0, 0)],
        (9, Sheet, 2, 17),
    ),
    (
        &[St(1), Nd(0, 0, 0, 0), Nd(19, 0, 0, 0), Nd(16, 0, 1, 0)],
        (9, Sheet, 3, 24),
    ),
    (
        &[St(1), Nd(19, 0, 0, 0), Nd(23, 0, 0, 0)],
        (9, Sheet, 2, 17),
    ),
    (
        &[St(1), Nd(0, 0, 0, 0), Ru(0, 0, 0, 0, 0)],
        (9, Sheet, 2, 17),
    ),
    (
        &[St(1), Nd(0, 0, 0, 0), Nd(19, 0, 0, 0), Ru(1, 0, 1, 0, 0)],
        (9, Sheet, 3, 24),
    ),
    // no station by the end: at the count of records and the length
    (&[], (11, Sheet, 0, 0)),
    (&[Nd(0, 0, 0, 5)], (11, Sheet, 1, 7)),
    (&[Nd(0, 0, 0, 5), Nd(17, 0, 0, 0)], (11, Sheet, 2, 14)),
    // nodes and rules alone that name a station, which is not there
    (&[Nd(1, 0, 0, 0)], (8, Sheet, 0, 0)),
    (&[Nd(19, 0, 0, 0)], (8, Sheet, 0, 0)),
    (&[Ru(0, 0, 0, 0, 0)], (8, Sheet, 0, 0)),
    (
        &[Nd(0, 0, 0, 5), Nd(17, 0, 0, 0), Ru(0, 0, 1, 0, 0)],
        (8, Sheet, 2, 14),
    ),
];

// Records with two errors, of which the one that is looked for first counts, and records behind an error, which do not count.
static FIRST: [Case; 29] = [
    // an unknown mark before a cut; a single byte is no mark yet
    (&[St(1), Raw(b"AB")], (2, Bytes, 1, 10)),
    (&[St(1), Raw(b"B")], (1, Bytes, 1, 10)),
    // a cut before the order and before the count
    (&[St(1), Nd(0, 0, 0, 0), Raw(b"ST\0")], (1, Bytes, 2, 17)),
    (&[St(1), Again(31), Raw(b"ST")], (1, Bytes, 32, 320)),
    // an unknown mark before the order
    (
        &[St(1), Nd(19, 0, 0, 0), Ru(0, 0, 0, 0, 0), Raw(b"NN")],
        (2, Bytes, 3, 24),
    ),
    // the order before the count: a station behind 32 and a node, a node behind 255 and a rule
    (
        &[St(1), Again(31), Nd(0, 0, 0, 0), St(1)],
        (3, Sheet, 33, 327),
    ),
    (
        &[
            St(1),
            Nd(19, 0, 0, 0),
            Again(254),
            Ru(0, 0, 0, 0, 0),
            Nd(0, 0, 0, 0),
        ],
        (3, Sheet, 257, 1802),
    ),
    // the order before what the record holds
    (&[St(1), Nd(0, 0, 0, 0), St(0)], (3, Sheet, 2, 17)),
    (
        &[St(1), Nd(19, 0, 0, 0), Ru(0, 0, 0, 0, 0), Nd(7, 9, 9, 5000)],
        (3, Sheet, 3, 24),
    ),
    // the count before what the record holds
    (&[St(1), Again(31), St(0)], (4, Sheet, 32, 320)),
    (
        &[St(1), Nd(0, 0, 0, 0), Again(254), Nd(7, 9, 9, 5000)],
        (4, Sheet, 256, 1795),
    ),
    (
        &[
            St(1),
            Nd(19, 0, 0, 0),
            Ru(0, 0, 0, 0, 0),
            Again(254),
            Ru(9, 9, 9, 9, 9),
        ],
        (4, Sheet, 257, 1802),
    ),
    // the kind before k, and before what is named
    (&[St(1), Nd(7, 0, 0, 1001)], (6, Sheet, 1, 10)),
    (&[St(1), Nd(7, 9, 9, 0)], (6, Sheet, 1, 10)),
    (&[St(1), Ru(2, 9, 9, 9, 9)], (6, Sheet, 1, 10)),
    // k before what is named, and before its sort
    (&[St(1), Nd(0, 1, 1, 1001)], (7, Sheet, 1, 10)),
    (&[St(1), Nd(1, 9, 0, 1)], (7, Sheet, 1, 10)),
    (
        &[St(1), Nd(19, 0, 0, 0), Nd(4, 0, 0, 17)],
        (7, Sheet, 2, 17),
    ),
    // what is named before its sort: b is not there, or not 0, where a is of the wrong sort
    (&[St(1), Nd(19, 0, 0, 0), Nd(2, 0, 9, 0)], (8, Sheet, 2, 17)),
    (
        &[St(1), Nd(19, 0, 0, 0), Nd(17, 0, 1, 0)],
        (8, Sheet, 2, 17),
    ),
    (
        &[St(1), Nd(0, 0, 0, 0), Ru(0, 0, 0, 1, 0)],
        (8, Sheet, 2, 17),
    ),
    (
        &[St(1), Nd(0, 0, 0, 0), Ru(1, 0, 0, 0, 9)],
        (8, Sheet, 2, 17),
    ),
    // an earlier record's error before a later one's
    (&[St(0), Raw(b"S")], (5, Sheet, 0, 0)),
    (&[St(1), Nd(7, 0, 0, 0), Raw(b"AA")], (6, Sheet, 1, 10)),
    (&[St(1), Nd(5, 0, 0, 0), Raw(b"ND\0")], (7, Sheet, 1, 10)),
    (&[Raw(b"AA"), St(0)], (2, Bytes, 0, 0)),
    (
        &[St(1), Nd(0, 0, 0, 0), St(1), Nd(7, 0, 0, 0)],
        (3, Sheet, 2, 17),
    ),
    // that there is no station is seen at the end alone
    (&[Nd(0, 0, 0, 0), Raw(b"S")], (1, Bytes, 1, 7)),
    (&[Nd(0, 0, 0, 0), St(1)], (3, Sheet, 1, 7)),
];

// A chain of eight nodes, numbered 0 to 7, each naming the one before: the last has depth 8.
static CHAIN: [Row; 9] = [
    St(1),
    Nd(0, 0, 0, 1),
    Nd(4, 0, 0, 1),
    Nd(4, 1, 0, 1),
    Nd(4, 2, 0, 1),
    Nd(4, 3, 0, 1),
    Nd(4, 4, 0, 1),
    Nd(4, 5, 0, 1),
    Nd(4, 6, 0, 1),
];

// A node behind that chain, and the number that it is refused with. Its record has number 9 and begins at byte 10 + 8 * 7.
static BEHIND_CHAIN: [(Row, u8); 8] = [
    // depth 9 by a, by b, and by a range
    (Nd(4, 7, 0, 1), 10),
    (Nd(2, 0, 7, 0), 10),
    (Nd(17, 7, 0, 0), 10),
    (Nd(16, 7, 7, 0), 10),
    // k, what is named and its sort come before the depth
    (Nd(4, 7, 0, 17), 7),
    (Nd(4, 7, 1, 1), 8),
    (Nd(2, 7, 8, 0), 8),
    (Nd(22, 7, 0, 0), 9),
];

// A kind with its bytes a and b, the ends of its k, and the numbers next to them outside.
type Ends = (u8, u8, u8, [i16; 2], [i16; 2]);

// Each kind: node 0 is a term, node 1 is a range, station 0 is there.
static ENDS: [Ends; 15] = [
    (0, 0, 0, [-1000, 1000], [-1001, 1001]),
    (1, 0, 0, [0, 0], [-1, 1]),
    (2, 0, 0, [0, 0], [-1, 1]),
    (3, 0, 0, [0, 0], [-1, 1]),
    (4, 0, 0, [-16, 16], [-17, 17]),
    (5, 0, 0, [1, 64], [0, 65]),
    (6, 0, 0, [1, 64], [0, 65]),
    (16, 0, 0, [0, 0], [-1, 1]),
    (17, 0, 0, [0, 0], [-1, 1]),
    (18, 0, 0, [0, 0], [-1, 1]),
    (19, 0, 0, [0, 0], [-1, 1]),
    (20, 1, 1, [0, 0], [-1, 1]),
    (21, 1, 1, [0, 0], [-1, 1]),
    (22, 1, 0, [0, 0], [-1, 1]),
    (23, 1, 0, [0, 0], [-1, 1]),
];

// The sheet of a station, a term, a range and the node given.
fn with_node(heap: Global, node: Row) -> Result<Vec<u8>, Fail> {
    let rows = [St(1), Nd(0, 0, 0, 1), Nd(19, 0, 0, 0), node];
    Ok(bytes_of(heap, &rows)?)
}

// A kind takes the ends of its k.
fn ends_fit(rt: &impl Abort, heap: Global, ends: &Ends) -> Result<(), Fail> {
    let (kind, a, b, inside, _) = *ends;
    for k in inside {
        let bytes = with_node(heap, Nd(kind, a, b, k))?;
        assert_eq!(rt; refusal(heap, bytes.as_slice()), None, "kind {kind} k {k}");
    }
    Ok(())
}

// A kind refuses what is next to the ends of its k, and what no kind takes.
fn outside_is_refused(rt: &impl Abort, heap: Global, ends: &Ends) -> Result<(), Fail> {
    let (kind, a, b, _, [below, above]) = *ends;
    for k in [below, above, -1001, 1001, -32768, 32767] {
        let bytes = with_node(heap, Nd(kind, a, b, k))?;
        let wanted = Some(told((7, Sheet, 3, 24)));
        assert_eq!(rt;
            refusal(heap, bytes.as_slice()),
            wanted,
            "kind {kind} k {k}"
        );
    }
    Ok(())
}

#[test]
fn each_fault(rt: HostRuntime) -> Result<(), Fail> {
    are_refused(&rt, rt.alloc(), &SINGLE)
}

#[test]
fn the_first_fault_counts(rt: HostRuntime) -> Result<(), Fail> {
    are_refused(&rt, rt.alloc(), &FIRST)
}

#[test]
fn depth_nine(rt: HostRuntime) -> Result<(), Fail> {
    let heap = rt.alloc();
    // depth 8 is accepted
    read(heap, bytes_of(heap, &CHAIN)?.as_slice())?;
    for (i, case) in BEHIND_CHAIN.iter().enumerate() {
        let mut bytes = bytes_of(heap, &CHAIN)?;
        bytes.extend_from_slice(bytes_of(heap, &[case.0])?.as_slice())?;
        let wanted = Some(told((case.1, Sheet, 9, 66)));
        assert_eq!(rt; refusal(heap, bytes.as_slice()), wanted, "case {i}");
    }
    Ok(())
}

#[test]
fn limits_of_numbers(rt: HostRuntime) -> Result<(), Fail> {
    let heap = rt.alloc();
    for ends in &ENDS {
        ends_fit(&rt, heap, ends)?;
        outside_is_refused(&rt, heap, ends)?;
    }
    Ok(())
}

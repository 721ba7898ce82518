// Sheets that are accepted: at the limits, and what their stations, nodes and rules are.
use crate::rows::Row::{Again, Nd, Ru, St};
use crate::rows::{Row, bytes_of};
use reading::read;
use sheet::{Claim, Form, Node, Rule};
use std::test::Fail;

// Some rows, and how many stations, nodes and rules they are accepted with.
type Case = (&'static [Row], (usize, usize, usize));

static ACCEPTED: [Case; 7] = [
    // one station alone; with the lowest and the highest channel
    (&[St(1)], (1, 0, 0)),
    (&[St(0x8000000000000000)], (1, 0, 0)),
    // 32 stations, 255 nodes, 255 rules, and all of them
    (&[St(1), Again(31)], (32, 0, 0)),
    (&[St(1), Nd(0, 0, 0, 0), Again(254)], (1, 255, 0)),
    (
        &[St(1), Nd(19, 0, 0, 0), Ru(0, 0, 0, 0, 0), Again(254)],
        (1, 1, 255),
    ),
    (
        &[
            St(1),
            Again(31),
            Nd(19, 31, 0, 0),
            Again(254),
            Ru(1, 31, 254, 31, 254),
            Again(254),
        ],
        (32, 255, 255),
    ),
    // nodes without rules
    (&[St(1), Nd(19, 0, 0, 0)], (1, 1, 0)),
];

#[test]
fn limits_of_counts(rt: HostRuntime) -> Result<(), Fail> {
    let heap = rt.alloc();
    for (i, case) in ACCEPTED.iter().enumerate() {
        let bytes = bytes_of(heap, case.0)?;
        let sheet = read(heap, bytes.as_slice())?;
        let counts = (sheet.stations.len(), sheet.nodes.len(), sheet.rules.len());
        assert_eq!(rt; counts, case.1, "case {i}");
    }
    Ok(())
}

// Two stations, a node of each kind and a rule of each, byte by byte.
pub(crate) static BYTES: [u8; 139] = *b"\
ST\x80\x00\x00\x00\x00\x00\x00\x01\
ST\x00\x00\x00\x00\x00\x00\x01\x02\
ND\x00\x00\x00\xfc\x18\
ND\x01\x01\x00\x00\x00\
ND\x02\x00\x01\x00\x00\
ND\x03\x01\x02\x00\x00\
ND\x04\x03\x00\xff\xf0\
ND\x05\x04\x00\x00\x40\
ND\x06\x00\x00\x00\x01\
ND\x10\x01\x00\x00\x00\
ND\x11\x02\x00\x00\x00\
ND\x12\x01\x00\x00\x00\
ND\x13\x01\x00\x00\x00\
ND\x14\x07\x08\x00\x00\
ND\x15\x0a\x09\x00\x00\
ND\x16\x0c\x00\x00\x00\
ND\x17\x0d\x05\x00\x00\
RU\x00\x01\x0e\x00\x00\
RU\x01\x00\x0a\x01\x0b";

// What the nodes of those bytes say, and their depths.
// The k of the first, fc 18, is 64536 - 65536; that of the one of kind 4, ff f0, is 65520 - 65536.
fn nodes() -> [Node; 15] {
    [
        node(Form::Number(-1000), 1),
        node(Form::Station(1), 1),
        node(Form::Sum(0, 1), 2),
        node(Form::Difference(1, 2), 3),
        node(Form::Multiple(-16, 3), 4),
        node(Form::Quotient(4, 64), 5),
        node(Form::Remainder(0, 1), 2),
        node(Form::Between(1, 0), 2),
        node(Form::AtLeast(2), 3),
        node(Form::AtMost(1), 2),
        node(Form::Channels(1), 1),
        node(Form::Union(7, 8), 4),
        node(Form::Intersection(10, 9), 3),
        node(Form::Complement(12), 4),
        node(Form::Shift(13, 5), 6),
    ]
}

fn node(form: Form, depth: u8) -> Node {
    Node { form, depth }
}

// What the rules of those bytes say.
fn rules() -> [Rule; 2] {
    [
        Rule::Plain(claim(1, 14)),
        Rule::Conditional(claim(0, 10), claim(1, 11)),
    ]
}

fn claim(station: u8, range: u8) -> Claim {
    Claim { station, range }
}

#[test]
fn what_the_bytes_say(rt: HostRuntime) -> Result<(), Fail> {
    let sheet = read(rt.alloc(), &BYTES)?;
    // channels 63 and 0, and channels 8 and 1
    assert_eq!(rt;
        sheet.stations.as_slice(),
        [0x8000000000000001, 258].as_slice()
    );
    assert_eq!(rt; sheet.nodes.as_slice(), nodes().as_slice());
    assert_eq!(rt; sheet.rules.as_slice(), rules().as_slice());
    Ok(())
}

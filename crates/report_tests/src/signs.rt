// Negative terms, and ranges that reach beyond the channels: station 0 is on 1 and 3, station 1 on 0 and 63.
use crate::sheets::{Number, Term, TestSheet, misjudged_number, misjudged_term};
use sheet_tests::Row;
use sheet_tests::Row::{Nd, St};
use std::test::Fail;

static ROWS: [Row; 33] = [
    St(10),
    St(0x8000000000000001),
    // 0 to 3: station 0's channel, that times -2, and the quotient and the remainder of that by 4
    Nd(1, 0, 0, 0),
    Nd(4, 0, 0, -2),
    Nd(5, 1, 0, 4),
    Nd(6, 1, 0, 4),
    // 4 to 9: -5 and -6, each with its quotient and its remainder by 3
    Nd(0, 0, 0, -5),
    Nd(5, 4, 0, 3),
    Nd(6, 4, 0, 3),
    Nd(0, 0, 0, -6),
    Nd(5, 7, 0, 3),
    Nd(6, 7, 0, 3),
    // 10 to 15: station 1's channel; what station 0's lies above it, and the two with -2 added up; 0 times that and its remainder by 5; -16 times the difference
    Nd(1, 1, 0, 0),
    Nd(3, 0, 10, 0),
    Nd(2, 1, 10, 0),
    Nd(4, 12, 0, 0),
    Nd(6, 13, 0, 5),
    Nd(4, 11, 0, -16),
    // 16 to 18: 63, 0 to 63, and all but that
    Nd(0, 0, 0, 63),
    Nd(16, 13, 16, 0),
    Nd(22, 17, 0, 0),
    // 19 to 22: all but 0 to 63, shifted up by 60 and down by 60
    Nd(0, 0, 0, 60),
    Nd(23, 18, 19, 0),
    Nd(0, 0, 0, -60),
    Nd(23, 18, 21, 0),
    // 23 and 24: all but 0 to 63, shifted up by station 0's channel, and all but that
    Nd(23, 18, 0, 0),
    Nd(22, 23, 0, 0),
    // 25 to 29: the channels of each station, their union and intersection, and all but the latter
    Nd(19, 0, 0, 0),
    Nd(19, 1, 0, 0),
    Nd(20, 25, 26, 0),
    Nd(21, 25, 26, 0),
    Nd(22, 28, 0, 0),
    // 30: 0 to 63 and all but that
    Nd(20, 17, 18, 0),
];

static TERMS: [Term; 13] = [
    (1, -6, -2),
    // -6 over 4 is below -1, and -2 over 4 is below 0
    (2, -2, -1),
    (3, 0, 3),
    // -5 is -2 times 3 and 1 over; -6 is -2 times 3
    (5, -2, -2),
    (6, 1, 1),
    (8, -2, -2),
    (9, 0, 0),
    (10, 0, 63),
    (11, -62, 3),
    (12, -6, 61),
    (13, 0, 0),
    (14, 0, 0),
    (15, -48, 992),
];

#[test]
fn ends_of_negative_terms(rt: HostRuntime) -> Result<(), Fail> {
    let sheet = TestSheet::new(rt.alloc(), &ROWS)?;
    let judge = sheet.judge();
    assert_eq!(rt; misjudged_term(judge, &TERMS), None);
    Ok(())
}

static RANGES: [Number; 30] = [
    (17, -1, false, false),
    (17, 0, true, true),
    (17, 63, true, true),
    (17, 64, false, false),
    (18, -1, true, true),
    (18, 63, false, false),
    // up by 60, 60 to 123 are left out
    (20, 59, true, true),
    (20, 60, false, false),
    (20, 123, false, false),
    (20, 124, true, true),
    // down by 60, -60 to 3 are
    (22, -61, true, true),
    (22, -60, false, false),
    (22, 3, false, false),
    (22, 4, true, true),
    // up by 1 or 3, nothing is known, of what is left out either
    (23, 30, true, false),
    (23, 100, true, false),
    (24, 30, true, false),
    (24, 100, true, false),
    // 1 and 3, or 0 and 63
    (27, 0, true, false),
    (27, 2, false, false),
    (27, 63, true, false),
    (28, 0, false, false),
    (28, 1, false, false),
    (29, 0, true, true),
    (29, -7, true, true),
    (30, -7, true, true),
    (30, 7, true, true),
    (30, 2147483647, true, true),
    (22, -2147483648, true, true),
    (17, -2147483648, false, false),
];

#[test]
fn numbers_beyond_the_channels(rt: HostRuntime) -> Result<(), Fail> {
    let sheet = TestSheet::new(rt.alloc(), &ROWS)?;
    let judge = sheet.judge();
    assert_eq!(rt; misjudged_number(judge, &RANGES), None);
    Ok(())
}

// A range's node, a set, and which of its channels are possible and certain there.
static SETS: [(u8, u64, u64, u64); 6] = [
    // all channels: those below 60, and those from 4 upwards
    (
        20,
        0xffffffffffffffff,
        0x0fffffffffffffff,
        0x0fffffffffffffff,
    ),
    (
        22,
        0xffffffffffffffff,
        0xfffffffffffffff0,
        0xfffffffffffffff0,
    ),
    (23, 0xffffffffffffffff, 0xffffffffffffffff, 0),
    (28, 0xffffffffffffffff, 0, 0),
    // 0 to 3: all but 2
    (27, 15, 11, 0),
    (17, 10, 10, 10),
];

#[test]
fn channels_in_ranges(rt: HostRuntime) -> Result<(), Fail> {
    let sheet = TestSheet::new(rt.alloc(), &ROWS)?;
    let judge = sheet.judge();
    for (node, set, may, must) in SETS {
        assert_eq!(rt; judge.possible_among(node, set), Some(may), "node {node}");
        assert_eq!(rt; judge.certain_among(node, set), Some(must), "node {node}");
    }
    // a term, and a node that is not there
    assert_eq!(rt; judge.possible_among(0, 15), None);
    assert_eq!(rt; judge.certain_among(31, 15), None);
    Ok(())
}

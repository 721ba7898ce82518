// Reports of sheets at the limits: 32 stations, depth 8, and no rules.
use crate::reports::{Case, are_reported};
use sheet_tests::Row::{Again, Nd, Ru, St};
use std::test::Fail;

static WIDE: [Case; 3] = [
    Case {
        shows: "one station on the highest channel, and no rules",
        rows: &[St(0x8000000000000000)],
        text: "stations 1 nodes 0 rules 0\nstation 0: 63\nplan 63\n",
    },
    // 1, doubled five times and taken once, is 32, six nodes below the range
    Case {
        shows: "a range at depth 8: from 32 upwards, for a station on 31, 32 and 33",
        rows: &[
            St(0x380000000),
            Nd(0, 0, 0, 1),
            Nd(4, 0, 0, 2),
            Nd(4, 1, 0, 2),
            Nd(4, 2, 0, 2),
            Nd(4, 3, 0, 2),
            Nd(4, 4, 0, 2),
            Nd(4, 5, 0, 1),
            Nd(17, 6, 0, 0),
            Ru(0, 0, 7, 0, 0),
        ],
        text: "stations 1 nodes 8 rules 1\nstation 0: 32 33\nrule 0 sure\nplan 32\n",
    },
    Case {
        shows: "32 stations on 3 and 63, the last of them from 10 upwards",
        rows: &[
            St(0x8000000000000008),
            Again(31),
            Nd(0, 0, 0, 10),
            Nd(17, 0, 0, 0),
            Ru(0, 31, 1, 0, 0),
        ],
        text: "stations 32 nodes 2 rules 1
station 0: 3 63
station 1: 3 63
station 2: 3 63
station 3: 3 63
station 4: 3 63
station 5: 3 63
station 6: 3 63
station 7: 3 63
station 8: 3 63
station 9: 3 63
station 10: 3 63
station 11: 3 63
station 12: 3 63
station 13: 3 63
station 14: 3 63
station 15: 3 63
station 16: 3 63
station 17: 3 63
station 18: 3 63
station 19: 3 63
station 20: 3 63
station 21: 3 63
station 22: 3 63
station 23: 3 63
station 24: 3 63
station 25: 3 63
station 26: 3 63
station 27: 3 63
station 28: 3 63
station 29: 3 63
station 30: 3 63
station 31: 63
rule 0 sure
plan 3 3 3 3 3 3 3 3 3 3 3 3 3 3 3 3 3 3 3 3 3 3 3 3 3 3 3 3 3 3 3 63
",
    },
];

#[test]
fn wide_and_deep_sheets(rt: HostRuntime) -> Result<(), Fail> {
    are_reported(&rt, rt.alloc(), &WIDE)
}

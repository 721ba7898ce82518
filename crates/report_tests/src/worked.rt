// Reports worked out by hand, by what they show. A station's set is written as a number: 15 is channels 0 to 3.
use crate::reports::{Case, are_reported};
use sheet_tests::Row::{Nd, Ru, St};
use std::test::Fail;

static TERMS: [Case; 5] = [
    // node 2 is station 1's channel and 2, so from 2 upwards is possible, and certain only from 5 upwards
    Case {
        shows: "station 0 at least 2 above station 1: settled, open, and the first plan",
        rows: &[
            St(15),
            St(15),
            Nd(1, 1, 0, 0),
            Nd(0, 0, 0, 2),
            Nd(2, 0, 1, 0),
            Nd(17, 2, 0, 0),
            Ru(0, 0, 3, 0, 0),
        ],
        text: "stations 2 nodes 4 rules 1
station 0: 2 3
station 1: 0 1 2 3
rule 0 open
plan 2 0
",
    },
    // -7 is -4 times 2 and 1 over: the quotient and 6 is 2
    Case {
        shows: "a quotient is rounded down and a remainder is not negative: -7 by 2 is -4 and 1",
        rows: &[
            St(15),
            St(15),
            Nd(0, 0, 0, -7),
            Nd(5, 0, 0, 2),
            Nd(0, 0, 0, 6),
            Nd(2, 1, 2, 0),
            Nd(16, 3, 3, 0),
            Nd(6, 0, 0, 2),
            Nd(16, 5, 5, 0),
            Ru(0, 0, 4, 0, 0),
            Ru(0, 1, 6, 0, 0),
        ],
        text: "stations 2 nodes 7 rules 2
station 0: 2
station 1: 1
rule 0 sure
rule 1 sure
plan 2 1
",
    },
    // -2 times {1, 3} runs from -6 to -2; with 10 more, from 4 to 8. At 1 it is 8
    Case {
        shows: "a negative factor swaps the ends: -2 times a station on 1 and 3",
        rows: &[
            St(10),
            St(0xffff),
            Nd(1, 0, 0, 0),
            Nd(4, 0, 0, -2),
            Nd(0, 0, 0, 10),
            Nd(2, 1, 2, 0),
            Nd(16, 3, 3, 0),
            Ru(0, 1, 4, 0, 0),
        ],
        text: "stations 2 nodes 5 rules 1
station 0: 1 3
station 1: 4 5 6 7 8
rule 0 open
plan 1 8
",
    },
    // 5 and 6 leave 1 and 2 over, but a remainder of what is not known runs from 0 to 3
    Case {
        shows: "a remainder of an unknown term may be anything below its divisor",
        rows: &[
            St(0x60),
            St(0xff),
            Nd(1, 0, 0, 0),
            Nd(6, 0, 0, 4),
            Nd(16, 1, 1, 0),
            Ru(0, 1, 2, 0, 0),
        ],
        text: "stations 2 nodes 3 rules 1
station 0: 5 6
station 1: 0 1 2 3
rule 0 open
plan 5 1
",
    },
    // {5} shifted up by station 0's channel: by 0 or by 1
    Case {
        shows: "a shift by an unknown term leaves everything possible",
        rows: &[
            St(3),
            St(0xe0),
            Nd(1, 0, 0, 0),
            Nd(0, 0, 0, 5),
            Nd(16, 1, 1, 0),
            Nd(23, 2, 0, 0),
            Ru(0, 1, 3, 0, 0),
        ],
        text: "stations 2 nodes 4 rules 1
station 0: 0 1
station 1: 5 6 7
rule 0 open
plan 0 5
",
    },
];

static RANGES: [Case; 4] = [
    // 3 less, 2 is -1 and 9 is 6, outside 0 to 5; 3 is 0 and 8 is 5, inside
    Case {
        shows: "a complement reaches past the channels: that of 0 to 5, shifted up by 3, holds 2 and 9, not 3 or 8",
        rows: &[
            St(0x30c),
            Nd(0, 0, 0, 0),
            Nd(0, 0, 0, 5),
            Nd(16, 0, 1, 0),
            Nd(22, 2, 0, 0),
            Nd(0, 0, 0, 3),
            Nd(23, 3, 4, 0),
            Ru(0, 0, 5, 0, 0),
        ],
        text: "stations 1 nodes 6 rules 1
station 0: 2 9
rule 0 sure
plan 2
",
    },
    Case {
        shows: "two stations on 4 and 5 that must differ: nothing is removed, and there is a plan",
        rows: &[
            St(0x30),
            St(0x30),
            Nd(19, 1, 0, 0),
            Nd(22, 0, 0, 0),
            Ru(0, 0, 1, 0, 0),
        ],
        text: "stations 2 nodes 2 rules 1
station 0: 4 5
station 1: 4 5
rule 0 open
plan 4 5
",
    },
    Case {
        shows: "three stations on 4 and 5, pairwise different: a settled store and no plan",
        rows: &[
            St(0x30),
            St(0x30),
            St(0x30),
            Nd(19, 1, 0, 0),
            Nd(22, 0, 0, 0),
            Nd(19, 2, 0, 0),
            Nd(22, 2, 0, 0),
            Ru(0, 0, 1, 0, 0),
            Ru(0, 0, 3, 0, 0),
            Ru(0, 1, 3, 0, 0),
        ],
        text: "stations 3 nodes 4 rules 3
station 0: 4 5
station 1: 4 5
station 2: 4 5
rule 0 open
rule 1 open
rule 2 open
no plan
",
    },
    Case {
        shows: "a station on 0 that has to be from 1 upwards: no settled store",
        rows: &[St(1), Nd(0, 0, 0, 1), Nd(17, 0, 0, 0), Ru(0, 0, 1, 0, 0)],
        text: "stations 1 nodes 2 rules 1
none
",
    },
];

// If station 0 is up to 0, station 1 is from 2 upwards.
static CONDITIONS: [Case; 4] = [
    // with station 0 at 0, station 1 has to be 2
    Case {
        shows: "an open condition narrows nothing",
        rows: &[
            St(3),
            St(7),
            Nd(0, 0, 0, 0),
            Nd(18, 0, 0, 0),
            Nd(0, 0, 0, 2),
            Nd(17, 2, 0, 0),
            Ru(1, 0, 1, 1, 3),
        ],
        text: "stations 2 nodes 4 rules 1
station 0: 0 1
station 1: 0 1 2
rule 0 open
plan 0 2
",
    },
    Case {
        shows: "a sure condition narrows the consequence's station",
        rows: &[
            St(1),
            St(7),
            Nd(0, 0, 0, 0),
            Nd(18, 0, 0, 0),
            Nd(0, 0, 0, 2),
            Nd(17, 2, 0, 0),
            Ru(1, 0, 1, 1, 3),
        ],
        text: "stations 2 nodes 4 rules 1
station 0: 0
station 1: 2
rule 0 sure
plan 0 2
",
    },
    Case {
        shows: "a broken condition makes the rule sure, and narrows nothing",
        rows: &[
            St(2),
            St(7),
            Nd(0, 0, 0, 0),
            Nd(18, 0, 0, 0),
            Nd(0, 0, 0, 2),
            Nd(17, 2, 0, 0),
            Ru(1, 0, 1, 1, 3),
        ],
        text: "stations 2 nodes 4 rules 1
station 0: 1
station 1: 0 1 2
rule 0 sure
plan 1 0
",
    },
    Case {
        shows: "a sure condition whose consequence is broken: no settled store",
        rows: &[
            St(1),
            St(3),
            Nd(0, 0, 0, 0),
            Nd(18, 0, 0, 0),
            Nd(0, 0, 0, 2),
            Nd(17, 2, 0, 0),
            Ru(1, 0, 1, 1, 3),
        ],
        text: "stations 2 nodes 4 rules 1
none
",
    },
];

#[test]
fn terms(rt: HostRuntime) -> Result<(), Fail> {
    are_reported(&rt, rt.alloc(), &TERMS)
}

#[test]
fn ranges(rt: HostRuntime) -> Result<(), Fail> {
    are_reported(&rt, rt.alloc(), &RANGES)
}

#[test]
fn conditions(rt: HostRuntime) -> Result<(), Fail> {
    are_reported(&rt, rt.alloc(), &CONDITIONS)
}

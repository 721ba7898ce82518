// Terms, ranges and what rules leave, judged one by one: station 0 is on 1 and 3, station 1 on 4 alone.
use crate::sheets::{Number, Term, TestSheet, misjudged_number, misjudged_term};
use sheet_tests::Row;
use sheet_tests::Row::{Nd, Ru, St};
use std::test::Fail;
use verdicts::{Narrowed, left};

static ROWS: [Row; 22] = [
    St(10),
    St(16),
    // 0 to 4: -7, its quotient and its remainder by 2, station 0's channel, and that times -2
    Nd(0, 0, 0, -7),
    Nd(5, 0, 0, 2),
    Nd(6, 0, 0, 2),
    Nd(1, 0, 0, 0),
    Nd(4, 3, 0, -2),
    // 5 to 10: 0, 5, 0 to 5, all but 0 to 5, 3, and all but 0 to 5 shifted up by 3
    Nd(0, 0, 0, 0),
    Nd(0, 0, 0, 5),
    Nd(16, 5, 6, 0),
    Nd(22, 7, 0, 0),
    Nd(0, 0, 0, 3),
    Nd(23, 8, 9, 0),
    // 11 and 12: the channels of each station
    Nd(19, 0, 0, 0),
    Nd(19, 1, 0, 0),
    // 13 to 15: 0 to 5 shifted up by station 0's channel, from that channel upwards, and up to it
    Nd(23, 7, 3, 0),
    Nd(17, 3, 0, 0),
    Nd(18, 3, 0, 0),
    // 16: from 3 upwards
    Nd(17, 9, 0, 0),
    // station 0 from 3 upwards; that, if station 1 is on its own channel; station 1 within 0 to 5, if station 0 is from 3 upwards
    Ru(0, 0, 16, 0, 0),
    Ru(1, 1, 12, 0, 16),
    Ru(1, 0, 16, 1, 7),
];

static TERMS: [Term; 5] = [
    (0, -7, -7),
    // -7 is -4 times 2 and 1 over
    (1, -4, -4),
    (2, 1, 1),
    (3, 1, 3),
    (4, -6, -2),
];

#[test]
fn ends_of_terms(rt: HostRuntime) -> Result<(), Fail> {
    let sheet = TestSheet::new(rt.alloc(), &ROWS)?;
    let judge = sheet.judge();
    assert_eq!(rt; misjudged_term(judge, &TERMS), None);
    // a range, and a node that is not there
    assert_eq!(rt; judge.ends(7), None);
    assert_eq!(rt; judge.ends(17), None);
    Ok(())
}

static RANGES: [Number; 27] = [
    (7, 0, true, true),
    (7, 6, false, false),
    (8, -1, true, true),
    (8, 0, false, false),
    (8, 5, false, false),
    (8, 6, true, true),
    // 3 less, 2 is -1 and 9 is 6; 3 is 0 and 8 is 5
    (10, 2, true, true),
    (10, 3, false, false),
    (10, 8, false, false),
    (10, 9, true, true),
    (10, -1000, true, true),
    (10, 1000, true, true),
    // the channels of a station with two, and of one with one
    (11, 1, true, false),
    (11, 2, false, false),
    (11, -1, false, false),
    (11, 65, false, false),
    (12, 4, true, true),
    (12, 5, false, false),
    // a shift by what is not known
    (13, -100, true, false),
    (13, 3, true, false),
    // from 1 or 3 upwards, and up to 1 or 3
    (14, 0, false, false),
    (14, 1, true, false),
    (14, 3, true, true),
    (15, 1, true, true),
    (15, 3, true, false),
    (15, 4, false, false),
    (16, 3, true, true),
];

#[test]
fn numbers_in_ranges(rt: HostRuntime) -> Result<(), Fail> {
    let sheet = TestSheet::new(rt.alloc(), &ROWS)?;
    let judge = sheet.judge();
    assert_eq!(rt; misjudged_number(judge, &RANGES), None);
    // a term, and a node that is not there
    assert_eq!(rt; judge.possible(0, 0), None);
    assert_eq!(rt; judge.certain(17, 0), None);
    Ok(())
}

#[test]
fn what_rules_leave(rt: HostRuntime) -> Result<(), Fail> {
    let sheet = TestSheet::new(rt.alloc(), &ROWS)?;
    let judge = sheet.judge();
    // of 1 and 3 only 3 is from 3 upwards: the set 8
    let only_three = Some(Narrowed {
        station: 0,
        channels: 8,
    });
    assert_eq!(rt; left(judge, 0), only_three);
    // a sure condition narrows
    assert_eq!(rt; left(judge, 1), only_three);
    // an open one leaves its consequence's station as it is
    let as_it_was = Some(Narrowed {
        station: 1,
        channels: 16,
    });
    assert_eq!(rt; left(judge, 2), as_it_was);
    assert_eq!(rt; left(judge, 3), None);
    Ok(())
}

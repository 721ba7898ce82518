// Sets of channels as words.
use masks::{has, highest_in, lowest_in, only};

// A set, a number, whether it is in the set, and whether it is the only one.
static MEMBERS: [(u64, i64, bool, bool); 12] = [
    // 1 and 3
    (10, 0, false, false),
    (10, 1, true, false),
    (10, 2, false, false),
    (10, 3, true, false),
    (10, -1, false, false),
    // 3 alone, none, and 63 alone
    (8, 3, true, true),
    (8, 4, false, false),
    (0, 0, false, false),
    (0x8000000000000000, 63, true, true),
    // all
    (0xffffffffffffffff, 63, true, false),
    (0xffffffffffffffff, 64, false, false),
    (0xffffffffffffffff, -64, false, false),
];

#[test]
fn members(rt: HostRuntime) {
    for (set, v, one, alone) in MEMBERS {
        assert_eq!(rt; has(set, v), one, "{v} in {set}");
        assert_eq!(rt; only(set, v), alone, "{v} in {set}");
    }
}

// A set, its lowest channel and its highest; 64 and 0 where it is empty.
static ENDS: [(u64, u32, u32); 6] = [
    (10, 1, 3),
    (1, 0, 0),
    (0, 64, 0),
    (0x8000000000000000, 63, 63),
    (0x8000000000000001, 0, 63),
    (0xffffffffffffffff, 0, 63),
];

#[test]
fn lowest_and_highest(rt: HostRuntime) {
    for (set, lowest, highest) in ENDS {
        assert_eq!(rt; lowest_in(set), lowest, "{set}");
        assert_eq!(rt; highest_in(set), highest, "{set}");
    }
}

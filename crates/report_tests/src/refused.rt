// Reports of sheets that are refused: one line, with number, layer, record and byte.
use crate::reports::{Case, are_reported};
use sheet_tests::Row::{Again, Nd, Raw, Ru, St};
use std::test::Fail;

static REFUSED: [Case; 6] = [
    Case {
        shows: "an unknown mark",
        rows: &[Raw(b"AA")],
        text: "refused 2 layer bytes record 0 byte 0\n",
    },
    Case {
        shows: "a record cut off behind a station",
        rows: &[St(1), Raw(b"ND\0")],
        text: "refused 1 layer bytes record 1 byte 10\n",
    },
    Case {
        shows: "no bytes at all",
        rows: &[],
        text: "refused 11 layer sheet record 0 byte 0\n",
    },
    Case {
        shows: "division by 0",
        rows: &[St(1), Nd(0, 0, 0, 1), Nd(5, 0, 0, 0)],
        text: "refused 7 layer sheet record 2 byte 17\n",
    },
    Case {
        shows: "a rule that names a term, behind two stations",
        rows: &[St(1), St(1), Nd(0, 0, 0, 1), Ru(0, 0, 0, 0, 0)],
        text: "refused 9 layer sheet record 3 byte 27\n",
    },
    // 32 stations, 255 nodes and 255 rules have 320 + 1785 + 1785 bytes; the rules go on past byte 4,096
    Case {
        shows: "a rule too many, in an input longer than what is looked at",
        rows: &[
            St(1),
            Again(31),
            Nd(0, 0, 0, 0),
            Nd(18, 0, 0, 0),
            Again(253),
            Ru(0, 0, 1, 0, 0),
            Again(699),
        ],
        text: "refused 4 layer sheet record 542 byte 3890\n",
    },
];

#[test]
fn refused_sheets(rt: HostRuntime) -> Result<(), Fail> {
    are_reported(&rt, rt.alloc(), &REFUSED)
}

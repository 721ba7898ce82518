// Verdicts in a sheet's own channels, before anything is settled: no report can show a broken rule, since it leaves nothing settled.
use crate::sheets::TestSheet;
use sheet_tests::Row;
use sheet_tests::Row::{Nd, Ru, St};
use std::alloc::Global;
use std::test::Fail;
use verdicts::Verdict::{Broken, Open, Sure};
use verdicts::{Verdict, verdict};

// The verdict on a rule of some rows, in the channels that they give their stations.
fn verdict_of(heap: Global, rows: &[Row], rule: usize) -> Result<Option<Verdict>, Fail> {
    let sheet = TestSheet::new(heap, rows)?;
    Ok(verdict(sheet.judge(), rule))
}

// A station's channels, and the verdict on its being from 1 upwards.
static PLAIN: [(u64, Verdict); 4] = [
    // {0}, {0, 1}, {1} and {1, 63}
    (1, Broken),
    (3, Open),
    (2, Sure),
    (0x8000000000000002, Sure),
];

#[test]
fn plain_rules(rt: HostRuntime) -> Result<(), Fail> {
    for (channels, wanted) in PLAIN {
        let rows = [
            St(channels),
            Nd(0, 0, 0, 1),
            Nd(17, 0, 0, 0),
            Ru(0, 0, 1, 0, 0),
        ];
        assert_eq!(rt;
            verdict_of(rt.alloc(), &rows, 0)?,
            Some(wanted),
            "{channels}"
        );
        // there is no second rule
        assert_eq!(rt; verdict_of(rt.alloc(), &rows, 1)?, None);
    }
    Ok(())
}

// The channels of two stations, and the verdict on this: if the first is up to 0, the second is from 2 upwards.
// The first one's condition is sure on {0}, open on {0, 1} and broken on {1}; the second one's consequence is sure on {2}, open on {1, 2} and broken on {1}.
static CONDITIONAL: [(u64, u64, Verdict); 9] = [
    (1, 4, Sure),
    (1, 6, Open),
    (1, 2, Broken),
    (3, 4, Sure),
    (3, 6, Open),
    (3, 2, Open),
    (2, 4, Sure),
    (2, 6, Sure),
    (2, 2, Sure),
];

#[test]
fn conditional_rules(rt: HostRuntime) -> Result<(), Fail> {
    for (first, second, wanted) in CONDITIONAL {
        let rows = [
            St(first),
            St(second),
            Nd(0, 0, 0, 0),
            Nd(18, 0, 0, 0),
            Nd(0, 0, 0, 2),
            Nd(17, 2, 0, 0),
            Ru(1, 0, 1, 1, 3),
        ];
        assert_eq!(rt;
            verdict_of(rt.alloc(), &rows, 0)?,
            Some(wanted),
            "{first} {second}"
        );
    }
    Ok(())
}

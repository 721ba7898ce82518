// A sheet with its whole report.
use reporting::report;
use sheet_tests::{Row, bytes_of};
use std::alloc::Global;
use std::process::Abort;
use std::test::Fail;

// What a case shows, the sheet's rows, and its report.
#[derive(Clone, Copy)]
pub struct Case {
    pub shows: &'static str,
    pub rows: &'static [Row],
    pub text: &'static str,
}

fn is_reported(rt: &impl Abort, heap: Global, case: &Case) -> Result<(), Fail> {
    let bytes = bytes_of(heap, case.rows)?;
    let text = report(heap, bytes.as_slice())?;
    assert_eq!(rt; text.as_str(), case.text, "{}", case.shows);
    Ok(())
}

pub(crate) fn are_reported(rt: &impl Abort, heap: Global, cases: &[Case]) -> Result<(), Fail> {
    for case in cases {
        is_reported(rt, heap, case)?;
    }
    Ok(())
}

// A sheet that a test judges, and what is wanted of its terms and ranges.
use judging::{Domains, Ends, Judge, sheet_channels};
use reading::read;
use sheet::Sheet;
use sheet_tests::{Row, bytes_of};
use std::alloc::Global;
use std::test::Fail;

// A term's node, its least and its greatest.
pub(crate) type Term = (u8, i64, i64);

// A range's node, a number, whether it is possible there, and whether it is certain.
pub(crate) type Number = (u8, i32, bool, bool);

// A sheet of a test, and its own channels.
#[derive(Drop)]
pub(crate) struct TestSheet {
    sheet: Sheet,
    domains: Domains,
}

impl TestSheet {
    pub(crate) fn new(heap: Global, rows: &[Row]) -> Result<TestSheet, Fail> {
        let bytes = bytes_of(heap, rows)?;
        let sheet = read(heap, bytes.as_slice())?;
        let domains = sheet_channels(&sheet);
        Ok(TestSheet { sheet, domains })
    }

    pub(crate) fn judge(&self) -> Judge<'_> {
        Judge {
            sheet: &self.sheet,
            domains: &self.domains,
        }
    }
}

// The first of some terms whose ends are judged otherwise.
pub(crate) fn misjudged_term(judge: Judge<'_>, terms: &[Term]) -> Option<Term> {
    terms.iter().copied().find(|term| {
        let (node, least, greatest) = *term;
        judge.ends(node) != Some(Ends { least, greatest })
    })
}

// The first of some numbers that is judged otherwise.
pub(crate) fn misjudged_number(judge: Judge<'_>, numbers: &[Number]) -> Option<Number> {
    numbers.iter().copied().find(|number| {
        let (node, v, may, must) = *number;
        judge.possible(node, v) != Some(may) || judge.certain(node, v) != Some(must)
    })
}

// The report on a sheet of bytes: its counts, what its rules leave of its channels, and its first plan, or why it is refused.
#![tactic(auto)]

ghost use Rattle.std.specs.Prelude.{◌≡◌, take};

mod spaced;

use judging::{Judge, sheet_channels};
use reading::{Room, read_in};
use search::first_plan;
use settling::settle;
use sheet::Sheet;
use spaced::Spaced;
use std::alloc::{AllocError, Global};
use std::fmt::Write;
use verdicts::verdict;

// How many bytes of the input count.
pub const LIMIT: usize = 4096;

// The bytes that count.
fn first_bytes(bytes: &[u8]) -> &[u8]
    ensures { result.now ≡ take 4096 bytes.now }
{
    &bytes[..LIMIT.min(bytes.len())]
}

// `station 0: 2 3`, a line a station.
fn push_stations(text: &mut String, settled: &[u64]) -> Result<(), AllocError> {
    for (station, channels) in settled.iter().enumerate() {
        writeln!(text, "station {station}:{}", Spaced(*channels))?;
    }
    Ok(())
}

// `rule 0 open`, a line a rule.
fn push_rules(text: &mut String, judge: Judge<'_>) -> Result<(), AllocError> {
    for rule in 0..judge.sheet.rules.len() {
        if let Some(verdict) = verdict(judge, rule) {
            writeln!(text, "rule {rule} {verdict}")?;
        }
    }
    Ok(())
}

// `plan 2 0`: a channel a station.
fn push_plan(text: &mut String, plan: &[u64]) -> Result<(), AllocError> {
    write!(text, "plan")?;
    for channels in plan {
        write!(text, "{}", Spaced(*channels))?;
    }
    writeln!(text)
}

// The lines of a sheet that settles.
fn push_settled(text: &mut String, judge: Judge<'_>) -> Result<(), AllocError> {
    let Judge { sheet, domains } = judge;
    let stations = sheet.stations.len();
    push_stations(text, &domains[..stations])?;
    push_rules(text, judge)?;
    match first_plan(judge) {
        Some(plan) => push_plan(text, &plan[..stations]),
        None => writeln!(text, "no plan"),
    }
}

// `stations 2 nodes 4 rules 1`, and what the sheet settles to.
fn push_sheet(text: &mut String, sheet: &Sheet) -> Result<(), AllocError> {
    writeln!(
        text,
        "stations {} nodes {} rules {}",
        sheet.stations.len(),
        sheet.nodes.len(),
        sheet.rules.len()
    )?;
    let domains = sheet_channels(sheet);
    let judge = Judge {
        sheet,
        domains: &domains,
    };
    match settle(judge) {
        Some(settled) => push_settled(text, judge.on(&settled)),
        None => writeln!(text, "none"),
    }
}

// The report on the first bytes of an input.
pub fn report(heap: Global, bytes: &[u8]) -> Result<String, AllocError> {
    let room = Room::new(heap)?;
    let mut text = String::new(heap);
    match read_in(room, first_bytes(bytes)) {
        Ok(sheet) => push_sheet(&mut text, &sheet)?,
        Err(fault) => writeln!(text, "refused {fault}")?,
    }
    Ok(text)
}

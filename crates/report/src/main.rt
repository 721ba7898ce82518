// Prints the report on the sheet that standard input holds.
#![tactic(auto)]

use reporting::{LIMIT, report as report_on};
use std::io;
use std::io::Read;

fn main(rt: HostRuntime) -> io::Result<()> {
    let heap = rt.alloc();
    let mut bytes = Vec::new(heap);
    rt.stdin().take(LIMIT as u64).read_to_end(&mut bytes)?;
    let text = report_on(heap, bytes.as_slice())?;
    rt.print(text)
}

// Sheets written back: the same bytes, those behind them untouched, and nothing written where they do not fit.
use crate::accepted::BYTES;
use faults::{Layer, PlanFault, Told};
use reading::read;
use std::test::Fail;
use writing::{size, write};

// What stands in a buffer before anything is written.
const FILL: u8 = 0xee;

#[test]
fn written_back_byte_for_byte(rt: HostRuntime) -> Result<(), Fail> {
    let sheet = read(rt.alloc(), &BYTES)?;
    assert_eq!(rt; size(&sheet), 139);
    let mut out = [FILL; 142];
    assert_eq!(rt; write(&sheet, &mut out)?, 139);
    assert_eq!(rt; &out[0..139], BYTES.as_slice());
    assert_eq!(rt; &out[139..142], [FILL; 3].as_slice());
    Ok(())
}

#[test]
fn a_buffer_of_just_the_size_will_do(rt: HostRuntime) -> Result<(), Fail> {
    let sheet = read(rt.alloc(), &BYTES)?;
    let mut out = [FILL; 139];
    assert_eq!(rt; write(&sheet, &mut out)?, 139);
    assert_eq!(rt; &out[0..139], BYTES.as_slice());
    Ok(())
}

// What a refused write is told as; nothing where the sheet was written.
fn refusal(answer: Result<usize, PlanFault>) -> Option<Told> {
    answer.err().map(|fault| fault.told())
}

#[test]
fn nothing_is_written_into_a_shorter_buffer(rt: HostRuntime) -> Result<(), Fail> {
    let sheet = read(rt.alloc(), &BYTES)?;
    let too_short = Some(Told {
        number: 17,
        layer: Layer::Plan,
        place: None,
    });
    let mut out = [FILL; 138];
    assert_eq!(rt; refusal(write(&sheet, &mut out)), too_short);
    assert_eq!(rt; &out[0..138], [FILL; 138].as_slice());
    assert_eq!(rt; refusal(write(&sheet, &mut [])), too_short);
    Ok(())
}

// The kinds of node: which numbers there are, and that the fields of each are its own.
use sheet::{Fields, Form, UnknownKind};
use std::test::Fail;

// Numbers of no kind: behind the terms, before the ranges and behind them.
static UNKNOWN: [u8; 4] = [7, 15, 24, 255];

#[test]
fn unknown_kinds(rt: HostRuntime) -> Result<(), Fail> {
    for kind in UNKNOWN {
        let fields = Fields {
            kind,
            a: 1,
            b: 2,
            k: 3,
        };
        assert_eq!(rt; Form::try_from(fields), Err(UnknownKind(kind)));
    }
    let said = format!(in rt.alloc(); "{}", UnknownKind(7))?;
    assert_eq!(rt; said.as_str(), "no kind of node has the number 7");
    Ok(())
}

#[test]
fn a_kind_and_its_fields(rt: HostRuntime) -> Result<(), Fail> {
    let fields = Fields {
        kind: 4,
        a: 3,
        b: 0,
        k: -16,
    };
    assert_eq!(rt; Form::try_from(fields), Ok(Form::Multiple(-16, 3)));
    assert_eq!(rt; Fields::from(Form::Multiple(-16, 3)), fields);
    Ok(())
}

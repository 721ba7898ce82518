// A sheet written as rows, a row a record, and its bytes.
use std::alloc::{AllocError, Global};

// A row of a sheet that a test writes.
#[derive(Clone, Copy)]
pub enum Row {
    // a station by its set of channels
    St(u64),
    // a node by its kind, a, b and k
    Nd(u8, u8, u8, i16),
    // a rule by its kind, station, node, second station and second node
    Ru(u8, u8, u8, u8, u8),
    // bytes as they are
    Raw(&'static [u8]),
    // the row before it, so many times more
    Again(u16),
}

// The bytes of one record more. A row that says "again" is none.
fn push_row(bytes: &mut Vec<u8>, row: Row) -> Result<(), AllocError> {
    match row {
        Row::St(channels) => {
            bytes.extend_from_slice(b"ST")?;
            bytes.extend_from_slice(&channels.to_be_bytes())
        }
        Row::Nd(kind, a, b, k) => {
            let [high, low] = k.to_be_bytes();
            bytes.extend_from_slice(&[b'N', b'D', kind, a, b, high, low])
        }
        Row::Ru(kind, station, node, second_station, second_node) => bytes.extend_from_slice(&[
            b'R',
            b'U',
            kind,
            station,
            node,
            second_station,
            second_node,
        ]),
        Row::Raw(part) => bytes.extend_from_slice(part),
        Row::Again(_) => Ok(()),
    }
}

// The bytes of some rows.
pub fn bytes_of(heap: Global, rows: &[Row]) -> Result<Vec<u8>, AllocError> {
    let mut bytes = Vec::new(heap);
    let mut last = Row::Raw(b"");
    for row in rows {
        if let Row::Again(times) = *row {
            for _ in 0..times {
                push_row(&mut bytes, last)?;
            }
        } else {
            push_row(&mut bytes, *row)?;
            last = *row;
        }
    }
    Ok(bytes)
}

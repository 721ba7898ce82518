// Memory to read into.
ghost use Rattle.std.specs.Prelude.{◌≡◌};
ghost use Rattle.reading.specs.Drafts.{drafted};
ghost use Rattle.reading.specs.Reading.{nothing};

use crate::draft::Draft;
use sheet::{MOST_NODES, MOST_RULES, MOST_STATIONS};
use std::alloc::{AllocError, Global};

// Room for the largest sheet, with nothing in it.
#[derive(Drop)]
pub struct Room {
    pub(crate) draft: Draft,
    ghost empty: { drafted draft ≡ nothing },
}

impl Room {
    // What reading needs, made beforehand; this is what can fail for want of memory.
    pub fn new(heap: Global) -> Result<Room, AllocError> {
        Ok(Room {
            draft: Draft {
                stations: Vec::with_capacity(heap, MOST_STATIONS)?,
                nodes: Vec::with_capacity(heap, MOST_NODES)?,
                rules: Vec::with_capacity(heap, MOST_RULES)?,
            },
        })
    }
}

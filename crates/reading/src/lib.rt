// Reading a sheet: bytes in, a sheet or the first fault out.
#![tactic(auto)]

ghost use Rattle.std.specs.Prelude.{◌≡◌, Err, ◌≢◌};
ghost use Rattle.faults.specs.declared.SheetFault.TheVariants.{Memory};
ghost use Rattle.reading.specs.Reading.{reading as reading_of, Reads, ReadsOrWants};

mod draft;
mod earlier;
mod room;

use faults::SheetFault;
use records::Reader;
pub use room::Room;
use sheet::Sheet;
use std::alloc::Global;

// The sheet that some bytes say, or the first fault, read into memory that was made beforehand.
pub fn read_in(room: Room, bytes: &[u8]) -> Result<Sheet, SheetFault>
    ensures { Reads (reading_of bytes.now) result }
{
    let mut reader = Reader::new(bytes);
    let mut draft = room.draft;
    while !reader.is_at_end() {
        let placed = reader.next_record()?;
        draft.add(placed)?;
    }
    draft.finish(reader.place)
}

// The same, with memory of its own: want of memory is one more answer, and none of the definition's.
#[tactic(auto, using(crate::proofs::Definite::reading_definite, crate::proofs::Definite::reads_too))]
pub fn read(heap: Global, bytes: &[u8]) -> Result<Sheet, SheetFault>
    ensures reads { ReadsOrWants (reading_of bytes.now) result }
    ensures definite { reading_of bytes.now ≢ Err Memory }
{
    let room = Room::new(heap)?;
    read_in(room, bytes)
}

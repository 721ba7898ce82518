// Writing a sheet back into bytes.
#![tactic(auto)]

ghost use Rattle.std.specs.Prelude.{◌≡◌, length};
ghost use Rattle.sheet.specs.Content.{content};
ghost use Rattle.writing.specs.Puts.{Writes};
ghost use Rattle.writing.specs.Written.{written, WrittenBack, ReadBack};

mod entry;

use entry::put_all;
use faults::PlanFault;
use sheet::Sheet;

// How many bytes a sheet is written in.
pub fn size(sheet: &Sheet) -> usize
    ensures { result ≡ length (written (content sheet.now)) }
{
    10 * sheet.stations.len() + 7 * sheet.nodes.len() + 7 * sheet.rules.len()
}

// Writes a sheet's bytes to the front of a buffer and says how many; a buffer that is too short stays as it was.
// Whatever bytes the sheet was read from are these, and from these it is read again.
#[tactic(auto, using(crate::proofs::Back::written_back, crate::proofs::Forth::sheet_forth))]
pub fn write(sheet: &Sheet, out: &mut [u8]) -> Result<usize, PlanFault>
    ensures writes { Writes (written (content sheet.now)) out.old out.new result }
    ensures back { WrittenBack (content sheet.now) }
    ensures forth { ReadBack (content sheet.now) }
{
    if out.len() < size(sheet) {
        return Err(PlanFault::TooShort);
    }
    let nodes_at = put_all(&sheet.stations, out);
    let rules_at = nodes_at + put_all(&sheet.nodes, &mut out[nodes_at..]);
    Ok(rules_at + put_all(&sheet.rules, &mut out[rules_at..]))
}

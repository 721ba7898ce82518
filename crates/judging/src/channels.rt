// The channels that judging starts from.
ghost use Rattle.std.specs.Prelude.{◌≡◌, ℕ, slice_index};

use crate::values::Domains;
use sheet::{MOST_STATIONS, Sheet};

// The sheet's channels, with none above its stations.
pub fn sheet_channels(sheet: &Sheet) -> Domains
    ensures { (s : ℕ) → slice_index result s ≡ slice_index sheet.now.stations.items s }
{
    let mut domains = [0; MOST_STATIONS];
    domains[..sheet.stations.len()].copy_from_slice(sheet.stations.as_slice());
    domains
}

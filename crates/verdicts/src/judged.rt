// Claims and rules of a judged sheet, with what the sheet promises of them.
ghost use Rattle.std.specs.Prelude.{◌≡◌, true, vec_len};
ghost use Rattle.sheet.specs.Sound.{sound_rule};
ghost use Rattle.verdicts.specs.Placed.{Placed};

use judging::Judge;
use sheet::{Claim, Rule};

// A claim whose station and range are there.
#[derive(Clone, Copy)]
pub(crate) struct JudgedClaim<'a> {
    pub(crate) judge: Judge<'a>,
    pub(crate) claim: Claim,
    ghost placed: { Placed (vec_len judge.sheet.now.stations) judge.sheet.now.nodes.items claim },
}

// A rule of the sheet.
#[derive(Clone, Copy)]
pub(crate) struct JudgedRule<'a> {
    pub(crate) judge: Judge<'a>,
    pub(crate) rule: Rule,
    ghost sound: { sound_rule (vec_len judge.sheet.now.stations) judge.sheet.now.nodes.items rule ≡ true },
}

// Settling: the rules narrow the channels until no rule narrows them further.
#![tactic(auto)]

ghost use Rattle.std.specs.Prelude.{◌<◌, IfSome, IsTrue, vec_len};
ghost use Rattle.masks.specs.Tables.{Inside, Store};
ghost use Rattle.settling.specs.Store.{Narrows};

use judging::{Domains, Judge};
use verdicts::{Narrowed, left};

// The channels after rule `rule` has narrowed them; nothing where it leaves its station none.
fn narrow(judge: Judge<'_>, rule: usize) -> Option<Domains>
    requires { rule < vec_len judge.sheet.now.rules }
    ensures { IfSome result (Narrows (vec_len judge.entry.sheet.now.stations) judge.entry.domains.now) }
{
    let Narrowed { station, channels } = left(judge, rule).unwrap();
    if channels == 0 {
        return None;
    }
    let mut domains = *judge.domains;
    domains[usize::from(station)] = channels;
    Some(domains)
}

// The channels after each rule has narrowed them once; nothing where a station has none left.
fn pass(judge: Judge<'_>) -> Option<Domains>
    ensures { IfSome result (Narrows (vec_len judge.entry.sheet.now.stations) judge.entry.domains.now) }
{
    let mut domains = *judge.domains;
    for rule in 0..judge.sheet.rules.len() {
        domains = narrow(judge.on(&domains), rule)?;
    }
    Some(domains)
}

// Whether each station of the sheet has a channel.
fn is_filled(judge: Judge<'_>) -> bool
    ensures { IsTrue result → Store (vec_len judge.entry.sheet.now.stations) judge.entry.domains.now }
{
    let Judge { sheet, domains } = judge;
    domains[..sheet.stations.len()].iter().all(|set| *set != 0)
}

// The channels that are left when no rule narrows them any more; nothing where a station has none left.
pub fn settle(judge: Judge<'_>) -> Option<Domains>
    ensures inside { IfSome result (λ after. Inside after judge.entry.domains.now) }
    ensures filled { IfSome result (Store (vec_len judge.entry.sheet.now.stations)) }
{
    if !is_filled(judge) {
        return None;
    }
    let mut before = *judge.domains;
    loop {
        let after = pass(judge.on(&before))?;
        if after == before {
            return Some(after);
        }
        before = after;
    }
}

// The search for plans: one channel for each station, so that every rule holds.
#![tactic(auto)]

ghost use Rattle.std.specs.Prelude.{◌≤◌, IfSome, vec_len};
ghost use Rattle.masks.specs.Tables.{Choice, Fixed};

use judging::{Domains, Judge};
use masks::{CHANNELS, has};
use settling::settle;

// The first plan among settled channels, of which the stations below `station` have one each.
// Each channel of the next station is tried, lowest first: the station is cut to it, and what is left is settled.
fn plan_from(judge: Judge<'_>, station: usize) -> Option<Domains>
    requires there { station ≤ vec_len judge.sheet.now.stations }
    requires fixed { Fixed station judge.domains.now }
    ensures { IfSome result (Choice (vec_len judge.entry.sheet.now.stations) judge.entry.domains.now) }
{
    if station == judge.sheet.stations.len() {
        return Some(*judge.domains);
    }
    for c in 0..CHANNELS {
        if has(judge.domains[station], i64::from(c)) {
            let mut cut = *judge.domains;
            cut[station] = 1 << c;
            if let Some(settled) = settle(judge.on(&cut)) {
                if let Some(plan) = plan_from(judge.on(&settled), station + 1) {
                    return Some(plan);
                }
            }
        }
    }
    None
}

// The first plan among settled channels, one channel for each station of the sheet; nothing where there is no plan.
// Plans are ordered by station 0's channel, then station 1's and so on, lower first.
pub fn first_plan(judge: Judge<'_>) -> Option<Domains>
    ensures { IfSome result (Choice (vec_len judge.entry.sheet.now.stations) judge.entry.domains.now) }
{
    plan_from(judge, 0)
}

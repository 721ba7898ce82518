// The verdict on a claim, and the channels that it leaves its station.
ghost use Rattle.std.specs.Prelude.{◌≡◌, vec_len};
ghost use Rattle.judging.specs.Judged.{certain_among, possible_among};
ghost use Rattle.judging.specs.JudgedNodes.{nodes_of};
ghost use Rattle.judging.specs.Nodes.{range_of};
ghost use Rattle.masks.specs.Tables.{at};
ghost use Rattle.verdicts.specs.Rules.{all_certain, claim_leaves, claim_verdict, none_possible, Within};

use crate::judged::JudgedClaim;
use crate::values::{Narrowed, Verdict};

impl JudgedClaim<'_> {
    // The channels of the claim's station.
    pub(crate) fn channels(self) -> u64
        ensures { result ≡ at self.entry.judge.domains.now self.entry.claim.station }
    {
        self.judge.domains[usize::from(self.claim.station)]
    }

    // Those that are certain in the claim's range.
    fn certain_channels(self) -> u64
        ensures { result ≡ certain_among self.entry.judge.domains.now (range_of (nodes_of self.entry.judge) self.entry.claim.range) (at self.entry.judge.domains.now self.entry.claim.station) }
    {
        self.judge
            .certain_among(self.claim.range, self.channels())
            .unwrap()
    }

    // Those that are possible in it.
    fn possible_channels(self) -> u64
        ensures { result ≡ possible_among self.entry.judge.domains.now (range_of (nodes_of self.entry.judge) self.entry.claim.range) (at self.entry.judge.domains.now self.entry.claim.station) }
    {
        self.judge
            .possible_among(self.claim.range, self.channels())
            .unwrap()
    }

    // Whether every channel of the claim's station is certain in its range.
    pub(crate) fn is_sure(self) -> bool
        ensures { result ≡ all_certain (nodes_of self.entry.judge) self.entry.judge.domains.now self.entry.claim }
    {
        self.certain_channels() == self.channels()
    }

    // Whether no channel of the claim's station is possible in its range.
    pub(crate) fn is_broken(self) -> bool
        ensures { result ≡ none_possible (nodes_of self.entry.judge) self.entry.judge.domains.now self.entry.claim }
    {
        self.possible_channels() == 0
    }

    // The verdict on the claim.
    pub(crate) fn verdict(self) -> Verdict
        ensures { result ≡ claim_verdict (nodes_of self.entry.judge) self.entry.judge.domains.now self.entry.claim }
    {
        if self.is_sure() {
            Verdict::Sure
        } else if self.is_broken() {
            Verdict::Broken
        } else {
            Verdict::Open
        }
    }

    // What the claim leaves of its station's channels.
    pub(crate) fn left(self) -> Narrowed
        ensures value { result ≡ claim_leaves (nodes_of self.entry.judge) self.entry.judge.domains.now self.entry.claim }
        ensures within { Within (vec_len self.entry.judge.sheet.now.stations) self.entry.judge.domains.now result }
    {
        Narrowed {
            station: self.claim.station,
            channels: self.possible_channels(),
        }
    }
}

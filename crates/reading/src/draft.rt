// What was read so far, and one record more.
ghost use Rattle.std.specs.Prelude.{◌≡◌, ◌<◌, ◌≤◌, OnOk, vec_len, vec_capacity};
ghost use Rattle.sheet.specs.Content.{Valid};
ghost use Rattle.sheet.specs.Limits.{most_stations, most_nodes, most_rules};

use crate::earlier::{Earlier, word};
use faults::{Flaw, Place, SheetFault};
use records::{Placed, Record};
use sheet::{MOST_NODES, MOST_RULES, MOST_STATIONS, Node, Rule, Sheet};

// What was read so far, with room for the rest. It is a sheet but for the station that it may still lack.
#[derive(Drop)]
pub(crate) struct Draft {
    pub(crate) stations: Vec<u64>,
    pub(crate) nodes: Vec<Node>,
    pub(crate) rules: Vec<Rule>,
    ghost valid: { Valid (record { stations = stations.items; nodes = nodes.items; rules = rules.items }) },
    ghost stations_fit: { most_stations ≤ vec_capacity stations },
    ghost nodes_fit: { most_nodes ≤ vec_capacity nodes },
    ghost rules_fit: { most_rules ≤ vec_capacity rules },
}

impl Draft {
    ghost use Rattle.records.specs.Records.{part as part_of};
    ghost use Rattle.reading.specs.Decoding.{station_of, node_of, rule_of};
    ghost use Rattle.reading.specs.Drafts.{drafted, Adds};
    ghost use Rattle.reading.specs.Reading.{added, finished, Reads};

    // What the next record finds before it.
    fn earlier(&self) -> Earlier<'_>
        ensures stations { result.stations ≡ vec_len self.now.stations }
        ensures nodes { result.nodes.now ≡ self.now.nodes.items }
    {
        Earlier {
            stations: self.stations.len(),
            nodes: self.nodes.as_slice(),
        }
    }

    // The channels of a station's record.
    fn station(&self, part: &[u8; 10]) -> Result<u64, Flaw>
        ensures value { result ≡ station_of (drafted self.now) part.now }
        ensures room { OnOk result (vec_len self.now.stations < most_stations) }
    {
        if !self.nodes.is_empty() || !self.rules.is_empty() {
            return Err(Flaw::OutOfOrder);
        }
        if self.stations.len() >= MOST_STATIONS {
            return Err(Flaw::TooMany);
        }
        let channels = word(part);
        if channels == 0 {
            return Err(Flaw::NoChannel);
        }
        Ok(channels)
    }

    // The node of a node's record.
    fn node(&self, part: &[u8; 7]) -> Result<Node, Flaw>
        ensures value { result ≡ node_of (drafted self.now) part.now }
        ensures room { OnOk result (vec_len self.now.nodes < most_nodes) }
    {
        if !self.rules.is_empty() {
            return Err(Flaw::OutOfOrder);
        }
        if self.nodes.len() >= MOST_NODES {
            return Err(Flaw::TooMany);
        }
        self.earlier().node(part)
    }

    // The rule of a rule's record.
    fn rule(&self, part: &[u8; 7]) -> Result<Rule, Flaw>
        ensures value { result ≡ rule_of (drafted self.now) part.now }
        ensures room { OnOk result (vec_len self.now.rules < most_rules) }
    {
        if self.rules.len() >= MOST_RULES {
            return Err(Flaw::TooMany);
        }
        self.earlier().rule(part)
    }

    // One record more, or what is wrong with it, told at its place.
    pub(crate) fn add(&mut self, placed: Placed<'_>) -> Result<(), SheetFault>
        ensures { Adds (added (drafted self.old) (part_of placed.entry.«record»).sort (part_of placed.entry.«record»).bytes placed.entry.place) result self.new }
    {
        let told = |flaw| SheetFault::Record(flaw, placed.place);
        match placed.record {
            Record::Station(part) => {
                let channels = self.station(part).map_err(told)?;
                self.stations.push_reserved(channels);
            }
            Record::Node(part) => {
                let node = self.node(part).map_err(told)?;
                self.nodes.push_reserved(node);
            }
            Record::Rule(part) => {
                let rule = self.rule(part).map_err(told)?;
                self.rules.push_reserved(rule);
            }
        }
        Ok(())
    }

    // What was read is a sheet if it has a station.
    pub(crate) fn finish(self, place: Place) -> Result<Sheet, SheetFault>
        ensures { Reads (finished (drafted self) place) result }
    {
        let Draft {
            stations,
            nodes,
            rules,
        } = self;
        if stations.is_empty() {
            return Err(SheetFault::NoStation(place));
        }
        Ok(Sheet {
            stations,
            nodes,
            rules,
        })
    }
}

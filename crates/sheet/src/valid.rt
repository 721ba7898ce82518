// The type of accepted sheets.
ghost use Rattle.std.specs.Prelude.{◌≤◌, vec_len};
ghost use Rattle.sheet.specs.Limits.{most_stations, most_nodes, most_rules};
ghost use Rattle.sheet.specs.Sound.{Filled, SoundNodes, SoundRules};

use crate::form::{Node, Rule};

// How much a sheet may hold, and how deep a node may be.
pub const MOST_STATIONS: usize = 32;

pub const MOST_NODES: usize = 255;

pub const MOST_RULES: usize = 255;

pub const DEEPEST: u8 = 8;

// A sheet that keeps the limits, whose stations have a channel each, and whose nodes and rules name only what is there, of the right sort and not too deep.
#[derive(Drop)]
pub struct Sheet {
    pub stations: Vec<u64>,
    pub nodes: Vec<Node>,
    pub rules: Vec<Rule>,
    ghost some_station: { 1 ≤ vec_len stations },
    ghost few_stations: { vec_len stations ≤ most_stations },
    ghost channels: { Filled stations.items },
    ghost few_nodes: { vec_len nodes ≤ most_nodes },
    ghost few_rules: { vec_len rules ≤ most_rules },
    ghost nodes_sound: { SoundNodes (vec_len stations) nodes.items },
    ghost rules_sound: { SoundRules (vec_len stations) nodes.items rules.items },
}

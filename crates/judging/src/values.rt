// What nodes are judged on, and what the judging of a term answers.
use sheet::{MOST_STATIONS, Sheet};

// The channels of each station, with a place for every one that a sheet may have: bit c of entry s is set where station s may use channel c. The entries past the sheet's stations are 0.
pub type Domains = [u64; MOST_STATIONS];

// A sheet, and the channels that its nodes and rules are judged on.
#[derive(Clone, Copy)]
pub struct Judge<'a> {
    pub sheet: &'a Sheet,
    pub domains: &'a Domains,
}

// The least and the greatest value that a term may take.
#[derive(Clone, Copy, Debug, PartialEq, Eq)]
pub struct Ends {
    pub least: i64,
    pub greatest: i64,
}

// Tests of judging and of the report, on small sheets worked out by hand.
#![tactic(auto)]

#[cfg(test)]
mod judged;
#[cfg(test)]
mod refused;
#[cfg(test)]
mod reports;
#[cfg(test)]
mod rule_verdicts;
#[cfg(test)]
mod sets;
#[cfg(test)]
mod sheets;
#[cfg(test)]
mod signs;
#[cfg(test)]
mod wide;
#[cfg(test)]
mod worked;

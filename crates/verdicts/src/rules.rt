// The verdict on a rule, and the channels that a rule leaves.
ghost use Rattle.std.specs.Prelude.{◌≡◌, true, IfSome, vec_len};
ghost use Rattle.judging.specs.JudgedNodes.{nodes_of};
ghost use Rattle.sheet.specs.Content.{content};
ghost use Rattle.sheet.specs.Sound.{sound_claim};
ghost use Rattle.verdicts.specs.Answers.{left_on, MeansOn, verdict_on};
ghost use Rattle.verdicts.specs.JudgedRules.{FindsRule};
ghost use Rattle.verdicts.specs.Laws.{VerdictLaws};
ghost use Rattle.verdicts.specs.Rules.{conditional, leaves, rule_verdict, Within};

use crate::judged::{JudgedClaim, JudgedRule};
use crate::values::{Narrowed, Verdict};
use judging::Judge;
use sheet::{Claim, Rule};

// The verdict on a conditional rule, by those on its condition and its consequence.
fn conditional_verdict(condition: Verdict, consequence: Verdict) -> Verdict
    ensures { result ≡ conditional condition consequence }
{
    match (condition, consequence) {
        (Verdict::Broken, _) | (_, Verdict::Sure) => Verdict::Sure,
        (Verdict::Sure, Verdict::Broken) => Verdict::Broken,
        _ => Verdict::Open,
    }
}

impl<'a> JudgedRule<'a> {
    // Rule `number`, if the sheet has it.
    fn find(judge: Judge<'a>, number: usize) -> Option<JudgedRule<'a>>
        ensures { FindsRule judge.entry number result }
    {
        let rule = *judge.sheet.rules.get(number)?;
        Some(JudgedRule { judge, rule })
    }

    // A claim that the rule makes.
    #[tactic(auto, using(crate::proofs::Placed::placed))]
    fn claim(self, claim: Claim) -> JudgedClaim<'a>
        requires { sound_claim (vec_len self.judge.sheet.now.stations) (nodes_of self.judge) claim ≡ true }
        ensures judge { result.judge ≡ self.entry.judge }
        ensures claim { result.claim ≡ claim }
    {
        JudgedClaim {
            judge: self.judge,
            claim,
        }
    }

    // The verdict on the rule.
    fn verdict(self) -> Verdict
        ensures { result ≡ rule_verdict (nodes_of self.entry.judge) self.entry.judge.domains.now self.entry.rule }
    {
        match self.rule {
            Rule::Plain(claim) => self.claim(claim).verdict(),
            Rule::Conditional(condition, consequence) => conditional_verdict(
                self.claim(condition).verdict(),
                self.claim(consequence).verdict(),
            ),
        }
    }

    // What the rule leaves of the channels of the station that it narrows. A conditional rule narrows only where its condition is sure.
    fn left(self) -> Narrowed
        ensures value { result ≡ leaves (nodes_of self.entry.judge) self.entry.judge.domains.now self.entry.rule }
        ensures within { Within (vec_len self.entry.judge.sheet.now.stations) self.entry.judge.domains.now result }
    {
        match self.rule {
            Rule::Plain(claim) => self.claim(claim).left(),
            Rule::Conditional(condition, consequence) => {
                let condition = self.claim(condition);
                let consequence = self.claim(consequence);
                if condition.is_sure() {
                    consequence.left()
                } else {
                    Narrowed {
                        station: consequence.claim.station,
                        channels: consequence.channels(),
                    }
                }
            }
        }
    }
}

// The verdict on rule `rule`; nothing where the sheet has no such rule.
#[tactic(auto, using(crate::proofs::Sheets::sheet_verdict_laws, crate::proofs::Sheets::verdict_means))]
pub fn verdict(judge: Judge<'_>, rule: usize) -> Option<Verdict>
    ensures value { result ≡ verdict_on (content judge.entry.sheet.now) judge.entry.domains.now rule }
    ensures means { MeansOn (content judge.entry.sheet.now) judge.entry.domains.now rule result }
    ensures laws { VerdictLaws (content judge.entry.sheet.now) }
{
    Some(JudgedRule::find(judge, rule)?.verdict())
}

// What rule `rule` leaves of the channels of the station that it narrows; nothing where the sheet has no such rule.
pub fn left(judge: Judge<'_>, rule: usize) -> Option<Narrowed>
    ensures value { result ≡ left_on (content judge.entry.sheet.now) judge.entry.domains.now rule }
    ensures within { IfSome result (Within (vec_len judge.entry.sheet.now.stations) judge.entry.domains.now) }
{
    Some(JudgedRule::find(judge, rule)?.left())
}

// The ends of a term, reckoned from the ends of the terms that it is made of.
ghost use Rattle.std.specs.Prelude.{◌≡◌, ◌*◌, ◌≤◌, pos, ◌+ℤ◌, ◌-ℤ◌, ◌*ℤ◌, if◌then◌else◌, int_lt, unsigned_abs, is_some, IfSome};
ghost use Rattle.judging.specs.Bounds.{Sixteenth};
ghost use Rattle.judging.specs.Judged.{same};
ghost use Rattle.judging.specs.Known.{Divisor};
ghost use Rattle.masks.specs.Sets.{channels, lowest, highest};
ghost use Rattle.std.specs.Int.{int_div_euclid, int_rem_euclid};

use crate::values::Ends;
use masks::{highest_in, lowest_in};

// An end, multiplied by a factor.
fn times(k: i64, end: i64) -> i64
    requires factor { unsigned_abs k ≤ 16 }
    requires end { 16 * unsigned_abs end ≤ 268435456000 }
    ensures { result ≡ k *ℤ end }
{
    k * end
}

// Three of these ask that 16 times an end is within the limits. A type for such ends would be made and opened again in the same arm of a `match`.
impl Ends {
    // A number is both of its ends.
    pub(crate) fn of_number(k: i64) -> Ends
        ensures least { result.least ≡ k }
        ensures greatest { result.greatest ≡ k }
    {
        Ends {
            least: k,
            greatest: k,
        }
    }

    // The lowest and the highest channel of a set.
    pub(crate) fn of_channels(word: u64) -> Ends
        ensures least { result.least ≡ pos (lowest channels word) }
        ensures greatest { result.greatest ≡ pos (highest channels word) }
    {
        Ends {
            least: i64::from(lowest_in(word)),
            greatest: i64::from(highest_in(word)),
        }
    }

    // Both ends are added.
    pub(crate) fn plus(self, other: Ends) -> Ends
        requires one { Sixteenth 268435456000 self }
        requires other { Sixteenth 268435456000 other }
        ensures least { result.least ≡ self.least +ℤ other.least }
        ensures greatest { result.greatest ≡ self.greatest +ℤ other.greatest }
    {
        Ends {
            least: self.least + other.least,
            greatest: self.greatest + other.greatest,
        }
    }

    // Each end lacks the other end of what is taken away.
    pub(crate) fn minus(self, other: Ends) -> Ends
        requires one { Sixteenth 268435456000 self }
        requires other { Sixteenth 268435456000 other }
        ensures least { result.least ≡ self.least -ℤ other.greatest }
        ensures greatest { result.greatest ≡ self.greatest -ℤ other.least }
    {
        Ends {
            least: self.least - other.greatest,
            greatest: self.greatest - other.least,
        }
    }

    // A negative factor swaps the ends.
    pub(crate) fn times(self, k: i64) -> Ends
        requires factor { unsigned_abs k ≤ 16 }
        requires ends { Sixteenth 268435456000 self }
        ensures least { result.least ≡ (if int_lt k (pos 0) then k *ℤ self.greatest else k *ℤ self.least) }
        ensures greatest { result.greatest ≡ (if int_lt k (pos 0) then k *ℤ self.least else k *ℤ self.greatest) }
    {
        if k < 0 {
            Ends {
                least: times(k, self.greatest),
                greatest: times(k, self.least),
            }
        } else {
            Ends {
                least: times(k, self.least),
                greatest: times(k, self.greatest),
            }
        }
    }

    // Both ends are rounded down.
    pub(crate) fn quotient(self, k: i64) -> Ends
        requires { Divisor k }
        ensures least { result.least ≡ int_div_euclid self.least k }
        ensures greatest { result.greatest ≡ int_div_euclid self.greatest k }
    {
        Ends {
            least: self.least.div_euclid(k),
            greatest: self.greatest.div_euclid(k),
        }
    }

    // The term's value, if it has just one.
    pub(crate) fn fixed(self) -> Option<i64>
        ensures one { is_some result ≡ same self.least self.greatest }
        ensures value { IfSome result (λ v. v ≡ self.least) }
    {
        (self.least == self.greatest).then_some(self.least)
    }

    // A remainder is known where the term has one value; otherwise it lies between 0 and k - 1.
    pub(crate) fn remainder(self, k: i64) -> Ends
        requires { Divisor k }
        ensures least { result.least ≡ (if same self.least self.greatest then int_rem_euclid self.least k else pos 0) }
        ensures greatest { result.greatest ≡ (if same self.least self.greatest then int_rem_euclid self.least k else k -ℤ pos 1) }
    {
        match self.fixed() {
            Some(value) => Ends::of_number(value.rem_euclid(k)),
            None => Ends {
                least: 0,
                greatest: k - 1,
            },
        }
    }
}

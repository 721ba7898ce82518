// The channels of a set that pass a test.
ghost use Rattle.std.specs.Prelude.{◌≡◌, ℕ, ◌<◌, Bool};
ghost use Rattle.judging.specs.Passing.{Computes, passing};
ghost use Rattle.masks.specs.Sets.{channels};

use masks::{CHANNELS, has};

// The channels of a set that pass a test, whatever test it is that `test` computes.
pub(crate) fn passing<F: Fn(u32) -> bool>(word: u64, test: F) -> u64
    requires { (c : ℕ) → c < channels → F.pre test c }
    ensures { (p : ℕ → Bool) → Computes (F.post test) p → result ≡ passing word p }
{
    let mut set = 0;
    for c in 0..CHANNELS {
        if has(word, i64::from(c)) && test(c) {
            set |= 1 << c;
        }
    }
    set
}

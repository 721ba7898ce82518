// Sets of channels as words: channel c is in the set where bit c is set.
#![tactic(auto)]

ghost use Rattle.std.specs.Prelude.{◌≡◌, ◌<◌};
ghost use Rattle.masks.specs.Sets.{channels, is_channel, holds, holds_only, lowest, highest, LowestIn, HighestIn};

// How many channels there are; they are numbered from 0.
pub const CHANNELS: u32 = 64;

// Whether v is a channel's number.
fn is_channel(v: i64) -> bool
    ensures { result ≡ is_channel v }
{
    0 <= v && v < i64::from(CHANNELS)
}

// Whether v is one of the channels of a set.
pub fn has(word: u64, v: i64) -> bool
    ensures { result ≡ holds word v }
{
    is_channel(v) && (word >> v) & 1 == 1
}

// Whether v is the only channel of a set.
pub fn only(word: u64, v: i64) -> bool
    ensures { result ≡ holds_only word v }
{
    is_channel(v) && word == 1 << v
}

// The lowest channel of a set; 64 where it is empty.
pub fn lowest_in(word: u64) -> u32
    ensures value { result ≡ lowest channels word }
    ensures least { 0 < word → LowestIn word result }
{
    word.trailing_zeros()
}

// The highest channel of a set; 0 where it is empty.
pub fn highest_in(word: u64) -> u32
    ensures value { result ≡ highest channels word }
    ensures greatest { 0 < word → HighestIn word result }
{
    (CHANNELS - 1).saturating_sub(word.leading_zeros())
}

// The modes' names, as the program reads and prints them, and their largest tags.
ghost use Rattle.std.specs.Prelude.{◌≡◌, ℕ, ◌^◌, ◌<◌, ◌++◌, Some, codes, MatchOption};
ghost use Rattle.std.specs.Fmt.{decimal};
ghost use Rattle.modes.specs.Any.{any_chosen};
ghost use Rattle.modes.specs.Names.{name as name_of, Streams, NameRead};

use crate::kinds::ModeKind;
use refusals::Refusal;
use sigma::{Half, ThreeQuarters, Whole};
use singles::variant::Variant;
use std::fmt;
use std::str::FromStr;
use streams::state::StreamCount;

impl ModeKind {
    // Bytes of the mode's largest tag.
    pub fn largest(self) -> usize
        ensures { result ≡ (any_chosen self).largest }
    {
        match self {
            ModeKind::Smac1 => Whole::LONGEST,
            ModeKind::Smac34 => ThreeQuarters::LONGEST,
            ModeKind::Smac12 => Half::LONGEST,
            ModeKind::Smac1xN(_) => 16,
        }
    }
}

impl fmt::Display for ModeKind {
    ghost output = { λ k. Some (name_of k) };

    fn fmt<W: fmt::Write>(&self, f: &mut fmt::Formatter<W>) -> fmt::Result {
        match self {
            ModeKind::Smac1 => f.write_str("smac-1"),
            ModeKind::Smac34 => f.write_str("smac-3/4"),
            ModeKind::Smac12 => f.write_str("smac-1/2"),
            ModeKind::Smac1xN(count) => write!(f, "smac-1x{}", count.get()),
        }
    }
}

// The number of streams in a name that has one.
fn streams_of(name: &str) -> Option<u8>
    ensures printed { (n : ℕ) → n < 2 ^ 8 → name.now ≡ codes "smac-1x" ++ decimal n → result ≡ Some n }
    ensures read { MatchOption result ((n : ℕ) → n < 2 ^ 8 → ¬ (Streams name.now n)) (Streams name.now) }
{
    name.strip_prefix("smac-1x")?.parse().ok()
}

impl FromStr for ModeKind {
    type Err = Refusal;

    ghost from_str_gives = { NameRead };

    fn from_str(name: &str) -> Result<ModeKind, Refusal> {
        match name {
            "smac-1" => Ok(ModeKind::Smac1),
            "smac-3/4" => Ok(ModeKind::Smac34),
            "smac-1/2" => Ok(ModeKind::Smac12),
            _ => {
                let streams = streams_of(name).ok_or(Refusal::ModeOrStreams)?;
                Ok(ModeKind::Smac1xN(StreamCount::try_from(streams)?))
            }
        }
    }
}

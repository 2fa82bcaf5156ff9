// The rule sheet: "Our rule sheet changed and old mirrors stay under the old sheet". What an edition demands is a line.
ghost use Rattle.std.specs.Prelude.{◌≡◌, ◌+◌, ◌≤◌, ◌<◌, ◌^◌, ◌*◌};
ghost use Rattle.std.specs.Int.Count.{ones};
ghost use Rattle.polishing.specs.Words.{EditionOf, edition_number, Says, met_by, WithWindow};

use crate::RuleRefusal;

#[derive(Clone, Copy)]
pub enum Edition {
    First,
    Second,
}

// "14 RULE for another edition"
impl TryFrom<usize> for Edition {
    type Error = RuleRefusal;

    ghost try_from_gives = { EditionOf };

    fn try_from(edition: usize) -> Result<Edition, RuleRefusal> {
        match edition {
            1 => Ok(Edition::First),
            2 => Ok(Edition::Second),
            _ => Err(RuleRefusal::Rule),
        }
    }
}

// At least so many whole readings in all, so many "below 32,768 (as mounted)", and so many "at or above it (turned)".
#[derive(Clone, Copy)]
pub struct Demands {
    pub all: usize,
    pub mounted: usize,
    pub turned: usize,
}

impl Edition {
    // "Edition 1: .. at least two readings are whole. Edition 2: at least three, of which one .. (as mounted) and one .. (turned)."
    pub fn demands(self) -> Demands
        ensures { Says (edition_number self) result }
    {
        match self {
            Edition::First => Demands {
                all: 2,
                mounted: 0,
                turned: 0,
            },
            Edition::Second => Demands {
                all: 3,
                mounted: 1,
                turned: 1,
            },
        }
    }
}

// The window of 32,768: from it on the readings are turned.
const TURNED: usize = 512;

// How many are whole, as mounted and turned.
#[derive(Clone, Copy, Default)]
pub struct Counts {
    pub mounted: usize,
    pub turned: usize,
}

impl Counts {
    // The readings of one window more, which lies on one side.
    pub fn with_window(self, w: usize, word: usize) -> Counts
        requires { (self.mounted ≤ 64 * 1024) × (self.turned ≤ 64 * 1024) }
        ensures { WithWindow self w (ones word) result }
    {
        let n = word.count_ones() as usize;
        if w < TURNED {
            return Counts {
                mounted: self.mounted + n,
                ..self
            };
        }
        Counts {
            turned: self.turned + n,
            ..self
        }
    }

    // Every demand is met by these counts.
    pub fn meet(self, d: Demands) -> bool
        requires { self.mounted + self.turned < 2 ^ 63 }
        ensures { result ≡ met_by d self.mounted self.turned }
    {
        d.all <= self.mounted + self.turned && d.mounted <= self.mounted && d.turned <= self.turned
    }
}

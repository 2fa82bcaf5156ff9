// The documents' number of a refusal.
ghost use Rattle.std.specs.Prelude.{◌≡◌};
ghost use Rattle.store.specs.Refusals.{number_of};

use crate::Refusal;

impl From<Refusal> for u64 {
    ghost from_gives = { λ r n. n ≡ number_of r };

    fn from(r: Refusal) -> u64 {
        match r {
            Refusal::Size => 1,
            Refusal::NoPage => 2,
            Refusal::Long => 3,
            Refusal::Damaged => 4,
            Refusal::NoRecord => 5,
            Refusal::Forwarded => 6,
            Refusal::Full => 7,
            Refusal::Stale => 8,
        }
    }
}

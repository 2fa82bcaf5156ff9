// A row that says what is done to each slot of a page: the deeds themselves, or their numbers.
ghost use Rattle.std.specs.Prelude.{◌≡◌, ℕ, ◌<◌};
ghost use Rattle.store.specs.declared.Deed.{Deed};
ghost use Rattle.page_repair.specs.Mended.{deed_of, deeds_of, deeds_numbered};

use crate::keep::Deeds;
use store::{Deed, MOST_SLOTS};

// A number for each slot that a page can have.
pub type DeedNumbers = [u8; MOST_SLOTS];

pub trait Plan {
    // The deed of each slot.
    ghost deeds: { Self → ℕ → Deed };

    fn deed(&self, k: usize) -> Deed
        requires { k < 2046 }
        ensures { result ≡ deeds self.now k };
}

impl Plan for Deeds {
    ghost deeds = { deeds_of };

    fn deed(&self, k: usize) -> Deed {
        self[k]
    }
}

// 3 and every greater number are the last deed.
fn deed_of(number: u8) -> Deed
    ensures { result ≡ deed_of number }
{
    match number {
        0 => Deed::Stays,
        1 => Deed::RecordFreed,
        2 => Deed::RedirectFreed,
        _ => Deed::MadeOrdinary,
    }
}

impl Plan for DeedNumbers {
    ghost deeds = { deeds_numbered };

    fn deed(&self, k: usize) -> Deed {
        deed_of(self[k])
    }
}

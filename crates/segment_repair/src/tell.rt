// "Each slot changed is one entry, each page's header one, the inventory one: page, slot or header or inventory, what was done."
ghost use Rattle.std.specs.Prelude.{◌≡◌, [], ◌∷◌, ◌+◌, ◌*◌, ◌≤◌, length};
ghost use Rattle.store.specs.Numbers.{put};
ghost use Rattle.store.specs.Repair.{slot_entries, words};
ghost use Rattle.page_repair.specs.Mended.{deeds_of};
ghost use Rattle.segment_repair.specs.Words.{place_of, number_of, entry_of};

use page_repair::keep::Deeds;
use store::{AT_HEADER, AT_INVENTORY, Deed};

// What was done, and to which slot, header or inventory.
#[derive(Clone, Copy)]
pub enum What {
    Slot { slot: usize, deed: Deed },
    HeaderWorkedOut,
    HeaderZeroed,
    InventoryWorkedOut,
}

impl What {
    fn place(self) -> u64
        ensures { result ≡ place_of self }
    {
        match self {
            What::Slot { slot, .. } => slot as u64,
            What::HeaderWorkedOut | What::HeaderZeroed => AT_HEADER,
            What::InventoryWorkedOut => AT_INVENTORY,
        }
    }
}

// The documents' number of what was done.
impl From<What> for u64 {
    ghost from_gives = { λ w n. n ≡ number_of w };

    fn from(w: What) -> u64 {
        match w {
            What::Slot { deed, .. } => match deed {
                Deed::Stays => 0,
                Deed::RecordFreed => 1,
                Deed::RedirectFreed => 2,
                Deed::MadeOrdinary => 3,
            },
            What::HeaderWorkedOut => 4,
            What::HeaderZeroed => 5,
            What::InventoryWorkedOut => 6,
        }
    }
}

// Entry number `at`: three words.
// List and number stay two parameters: as write.rt says.
pub fn tell(entries: &mut [u64], at: usize, page: usize, what: What)
    requires { 3 * at + 3 ≤ length entries.old }
    ensures { entries.new ≡ put entries.old (3 * at) (words (entry_of page what ∷ [])) }
{
    entries[3 * at] = page as u64;
    entries[3 * at + 1] = what.place();
    entries[3 * at + 2] = u64::from(what);
}

// The entries of the slots of page p, from number `at` on; answers the number of the next.
pub fn tell_slots(entries: &mut [u64], at: usize, p: usize, n: usize, deeds: &Deeds) -> usize
    requires { (n ≤ 2046) × (3 * (at + length (slot_entries (deeds_of deeds.now) p n)) ≤ length entries.old) }
    ensures { (result ≡ at + length (slot_entries (deeds_of deeds.now) p n))
        × (entries.new ≡ put entries.old (3 * at) (words (slot_entries (deeds_of deeds.now) p n))) }
{
    let mut next = at;
    for slot in 0..n {
        let deed = deeds[slot];
        if deed != Deed::Stays {
            tell(entries, next, p, What::Slot { slot, deed });
            next += 1;
        }
    }
    next
}

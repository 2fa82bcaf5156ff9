// What of a page goes into the file: "A record shorter than 8 bytes is not a reading, and export passes over it".
ghost use Rattle.std.specs.Prelude.{◌≡◌, true, ◌≤◌, ◌<◌};
ghost use Rattle.store.specs.Page.{view, sound};
ghost use Rattle.store.specs.Slots.{len, is_target};
ghost use Rattle.store.specs.Laws.Slots.{Codable};
ghost use Rattle.exchange.specs.Words.{part_at, part_of_slot, OnPage};

use store::{BACK, Page, Slot};

// Mirror, reading and row.
pub const HEAD: usize = 8;

// A slot as export takes it: the part of the page that is a reading; a record that is none; or no record.
#[derive(Clone, Copy)]
pub enum Part {
    Reading { offset: usize, length: usize },
    Passed,
    Nothing,
}

// The record at this offset.
fn part_at(offset: usize, length: usize) -> Part
    ensures { result ≡ part_at offset length }
{
    if length < HEAD {
        return Part::Passed;
    }
    Part::Reading { offset, length }
}

// As the scan gives it: a target's record without the back id; free slots and redirects are no records. For crates above; it is no
// call for users.
// That the slot's numbers fit is a clause: as layout::slots says.
pub fn part_of(s: Slot) -> Part
    requires { Codable s × (is_target s ≡ true → 8 ≤ len s) }
    ensures { result ≡ part_of_slot s }
{
    match s {
        Slot::Ordinary { offset, length } => part_at(offset, length),
        Slot::Free | Slot::Redirect { .. } => Part::Nothing,
        Slot::Target { offset, length } => part_at(offset + BACK, length - BACK),
    }
}

// Slot k of a page that is sound. For crates above, too.
pub fn part_on(page: &Page, k: usize) -> Part
    requires { (sound (view page.now) ≡ true) × (k < (view page.now).slot_count) }
    ensures { (result ≡ part_of_slot ((view page.now).at k)) × OnPage page.now result }
{
    part_of(layout::slots::get_slot(page, k))
}

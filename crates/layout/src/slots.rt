// The slot codec, and a slot of the page as the view has it.
// That a slot's numbers fit an entry stays a clause: an enum keeps no ghost field, and fields of 32 bits would be widened at each use.
ghost use Rattle.std.specs.Prelude.{◌≡◌, ◌+◌, ◌*◌, ◌^◌, ◌<◌, length};
ghost use Rattle.store.specs.Numbers.{put};
ghost use Rattle.store.specs.Slots.{slot_word, slot_bytes, slot_of};
ghost use Rattle.store.specs.Page.{view};
ghost use Rattle.store.specs.Laws.Slots.{Codable};

use crate::HALF;
use store::{ENTRY, HEADER, Page, Slot};

// "The top two bits of a slot tell its kind": from these on the high half of an entry is of the kind, and below the first of them the
// entry is an ordinary record's. Numbers, for they are the page's format: what callers get is a Slot.
pub const FREE: usize = 1 << 30;

pub const REDIRECT: usize = 2 << 30;

pub const TARGET: usize = 3 << 30;

const FREE_ENTRY: usize = FREE << 32;

const REDIRECT_ENTRY: usize = REDIRECT << 32;

const TARGET_ENTRY: usize = TARGET << 32;

// A slot's entry. No From: only a slot whose numbers fit has one.
fn slot_word(s: Slot) -> usize
    requires { Codable s }
    ensures { result ≡ slot_word s }
{
    match s {
        Slot::Ordinary { offset, length } => offset * HALF + length,
        Slot::Free => FREE_ENTRY,
        Slot::Redirect { id } => REDIRECT_ENTRY + id,
        Slot::Target { offset, length } => TARGET_ENTRY + (offset * HALF + length),
    }
}

// An entry in its two halves.
fn slot_of(high: usize, low: usize) -> Slot
    requires { (high < 2 ^ 32) × (low < 2 ^ 32) }
    ensures { (result ≡ slot_of (high * 2 ^ 32 + low)) × Codable result }
{
    if high < FREE {
        return Slot::Ordinary {
            offset: high,
            length: low,
        };
    }
    if high < REDIRECT {
        return Slot::Free;
    }
    if high < TARGET {
        return Slot::Redirect {
            id: (high - REDIRECT) * HALF + low,
        };
    }
    Slot::Target {
        offset: high - TARGET,
        length: low,
    }
}

// The entry of slot k, which is counted.
#[tactic(auto, using(crate::proofs::Codec::counted_slot))]
pub fn get_slot(page: &Page, k: usize) -> Slot
    requires { (k < (view page.now).slot_count) × (k < 2046) }
    ensures { (result ≡ (view page.now).at k) × Codable result }
{
    let at = HEADER + ENTRY * k;
    slot_of(crate::get_u32(page, at), crate::get_u32(page, at + 4))
}

pub fn write_slot(page: &mut Page, k: usize, s: Slot)
    requires { (k < 2046) × Codable s }
    ensures { page.new ≡ put page.old (12 + 8 * k) (slot_bytes s) }
{
    let e = slot_word(s);
    crate::put_u64(page, HEADER + ENTRY * k, e);
}

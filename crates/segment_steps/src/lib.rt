// One page of the segment lent on from its middle, to be written: allocate and erase on page p, and the update of its class.
// Each step splits the segment itself: of a function that returns the page to be written, no clause can say what it leaves of the segment.
#![tactic(auto)]

ghost use Rattle.std.specs.Prelude.{◌≡◌, ◌/◌, ◌≤◌, length};
ghost use Rattle.store.specs.Page.{view};
ghost use Rattle.store.specs.PageSteps.{allocate, erase};
ghost use Rattle.store.specs.Inventory.{Room, update};
ghost use Rattle.store.specs.Answers.{given_place, allotted};
ghost use Rattle.store.specs.Laws.Lent.{Within, SoundOn, TakenOn};
ghost use Rattle.store.specs.Segment.{page_of, on, carried_on};
ghost use Rattle.slotted_page.specs.Words.{Inside, PastEntry};
ghost use Rattle.segment_steps.specs.Words.{seen, allocated_on};

use store::{PAGE_SIZE, Place};

// A place for a record of `size` bytes on page p, fresh or in use; its bytes are left to be written there.
pub fn allocate_on(segment: &mut [u8], p: usize, size: usize) -> Option<Place>
    requires sound_on { SoundOn segment.old p }
    requires size_bound { size ≤ 16364 }
    ensures { (segment.new ≡ allocated_on segment.old p (allocate (seen segment.old p) size))
        × (given_place result ≡ allotted (allocate (seen segment.old p) size)) × Inside result size × PastEntry result }
{
    let rest = segment.split_at_mut(p * PAGE_SIZE).1;
    slotted_page::allocate::allocate(rest.first_chunk_mut().unwrap(), size)
}

// Slot k of page p, which is not free, is freed.
pub fn erase_on(segment: &mut [u8], p: usize, k: usize)
    requires { TakenOn segment.old p k }
    ensures { segment.new ≡ carried_on (on p (erase (seen segment.old p) k)) segment.old }
{
    let rest = segment.split_at_mut(p * PAGE_SIZE).1;
    slotted_page::erase::erase(rest.first_chunk_mut().unwrap(), k);
}

// The inventory's class of page p, from the free space that its header says.
pub fn update_on(segment: &[u8], inventory: &mut [u8], p: usize)
    requires room { Room inventory.old (length segment.now / 16384) }
    requires within { (Within segment.now p) × ((view (page_of segment.now p)).free_space ≤ 16372) }
    ensures { inventory.new
        ≡ update inventory.old (length segment.now / 16384) p (view (page_of segment.now p)).free_space }
{
    let n = segment.len() / PAGE_SIZE;
    let free = layout::header::get_free_space(segment_pages::page_of(segment, p));
    free_space_inventory::update_page_size(inventory, n, p, free);
}

// Resize: the record keeps its bytes, cut off or filled up with zeros. They are saved by value only where they move to another page.
// Segment and inventory, and what is known of them: two parameters and clauses, as lib.rt says.
ghost use Rattle.std.specs.Prelude.{◌≡◌, ◌≤◌, take, drop};
ghost use Rattle.store.specs.Numbers.{fit, page_no, slot_no};
ghost use Rattle.store.specs.Slots.{len};
ghost use Rattle.store.specs.Segment.{resize_step};
ghost use Rattle.store.specs.Answers.{outcome};
ghost use Rattle.store.specs.Laws.Lent.{SoundOn};
ghost use Rattle.store.proofs.Laws.Fit.{length_fit};
ghost use Rattle.segment_steps.specs.Words.{seen};

use crate::change::Change;
use store::{BACK, IDS_A_PAGE, PAGE_SIZE, Page, Refusal};

// The record in the slot of this id, without its first `skip` bytes: saved to the front of `old`, and its length answered.
fn save_record(segment: &[u8], id: usize, skip: usize, old: &mut Page) -> usize
    requires sound_on { SoundOn segment.now (page_no id) }
    requires skip_bound { skip ≤ len ((seen segment.now (page_no id)).at (slot_no id)) }
    ensures { (result ≤ 16384) × (take result old.new ≡ drop skip ((seen segment.now (page_no id)).bytes (slot_no id))) }
{
    let p = id / IDS_A_PAGE;
    let slot = segment_pages::slot_on(segment, p, id % IDS_A_PAGE);
    let n = slot.len() - skip;
    let at = p * PAGE_SIZE + slot.offset() + skip;
    layout_runs::save(segment, at, n, old);
    n
}

#[derive(Clone, Copy)]
struct Resized {
    size: usize,
}

impl Change for Resized {
    ghost sized = { λ c. c.size };

    ghost made = { λ c. fit c.size };

    ghost long = { λ c old. length_fit c.size old };

    fn size(&self) -> usize {
        self.size
    }

    fn on_page(&self, segment: &mut [u8], p: usize, k: usize) -> bool {
        segment_moves::resize_on(segment, p, k, self.size)
    }

    fn on_target(&self, segment: &mut [u8], p: usize, k: usize, id: usize) -> bool {
        segment_moves::resize_target_on(segment, p, k, id, self.size)
    }

    fn forward(
        &self,
        segment: &mut [u8],
        inventory: &mut [u8],
        id: usize,
    ) -> Result<usize, Refusal> {
        let mut old = [0u8; PAGE_SIZE];
        let n = save_record(segment, id, 0, &mut old);
        segment_forward::forward(segment, inventory, id, &old[..n], self.size)
    }

    fn go_home(
        &self,
        segment: &mut [u8],
        inventory: &mut [u8],
        id: usize,
        t: usize,
    ) -> Result<usize, Refusal> {
        let mut old = [0u8; PAGE_SIZE];
        let n = save_record(segment, t, BACK, &mut old);
        segment_forward::at_home(segment, inventory, id, t, &old[..n], self.size)
    }

    fn forward_again(
        &self,
        segment: &mut [u8],
        inventory: &mut [u8],
        id: usize,
        t: usize,
    ) -> Result<usize, Refusal> {
        let mut old = [0u8; PAGE_SIZE];
        let n = save_record(segment, t, BACK, &mut old);
        segment_forward::forward_again(segment, inventory, id, t, &old[..n], self.size)
    }
}

pub fn resize_record(
    segment: &mut [u8],
    inventory: &mut [u8],
    id: usize,
    size: usize,
) -> Result<usize, Refusal>
    ensures { outcome result segment.new inventory.new ≡ resize_step segment.old inventory.old id size }
{
    crate::store_record(segment, inventory, id, &Resized { size })
}

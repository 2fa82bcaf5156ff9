// A new target where the page has made a place for it.
ghost use Rattle.std.specs.Prelude.{◌≡◌, ◌++◌, ◌+◌, ◌*◌, ◌≤◌, length};
ghost use Rattle.store.specs.Numbers.{put, to_be, fit};
ghost use Rattle.store.specs.Slots.{slot_bytes};

use store::{Page, Place, Slot};

// "A new target of size + 8" at the place that `allocate` answered: its entry is a target's; then come the id of its root and the
// bytes, cut off or filled up with zeros to `size`.
pub fn write_target(page: &mut Page, place: Place, id: usize, bytes: &[u8], size: usize)
    requires { (20 + 8 * place.slot ≤ place.offset) × (place.offset + (size + 8) ≤ 16384) }
    ensures { page.new
        ≡ put (put page.old (12 + 8 * place.slot) (slot_bytes (Slot.Target place.offset (size + 8)))) place.offset
        (to_be 8 id ++ fit size bytes.now) }
{
    let Place { slot, offset } = place;
    layout::slots::write_slot(
        page,
        slot,
        Slot::Target {
            offset,
            length: size + 8,
        },
    );
    layout::put_u64(page, offset, id);
    layout_runs::fit_in(page, offset + 8, bytes, size);
}

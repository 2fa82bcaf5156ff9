// Insert and allocate: "Insert asks the inventory and allocates there; a fresh page is initialised first." Many rows in one call: rows.rt.
// Segment and inventory stay two parameters, as C lends them, and what is known of them a clause: no type keeps a fact beside a `&mut`.
#![tactic(auto)]

pub mod row;
pub mod rows;

ghost use Rattle.std.specs.Prelude.{◌≡◌, true, ◌&&◌, ◌≤◌, length, Some};
ghost use Rattle.store.specs.Segment.{size_ok, inv_ok, insert_step, allocate_step};
ghost use Rattle.store.specs.Answers.{outcome};
ghost use Rattle.store.specs.Laws.Lent.{SoundOn};
ghost use Rattle.segment_steps.specs.Words.{Sizes};
ghost use Rattle.segment_insert.specs.Words.{PageFor, named_on};

use row::{Bytes, Row, Zeros};
pub use rows::insert_records;
use store::{IDS_A_PAGE, LONGEST, PAGE_SIZE, Place, Refusal};

// The page that the inventory names for a row, not yet seen to be sound: 3 LONG, then 7 FULL where it names none.
fn page_for<R: Row>(segment: &[u8], inventory: &[u8], row: &R) -> Result<usize, Refusal>
    requires { (size_ok segment.now && inv_ok inventory.now) ≡ true }
    ensures { PageFor segment.now inventory.now (R.bytes row.now) result }
{
    let size = row.len();
    if LONGEST < size {
        return Err(Refusal::Long);
    }
    let n = segment.len() / PAGE_SIZE;
    free_space_inventory::find_page(inventory, n, size + 8).ok_or(Refusal::Full)
}

// On page p, which is sound. "If the page's answer holds no place, the call stops there"; else the row is written at its offset, and the
// inventory is told the page's free space.
fn insert_sound_at<R: Row>(
    segment: &mut [u8],
    inventory: &mut [u8],
    p: usize,
    row: &R,
) -> Result<usize, Refusal>
    requires sizes { Sizes segment.old inventory.old }
    requires sound_on { SoundOn segment.old p × (length (R.bytes row.now) ≤ 16364) }
    ensures { outcome result segment.new inventory.new
        ≡ named_on segment.old inventory.old (R.bytes row.now) (Some p) }
{
    let Some(Place { slot, offset }) = segment_steps::allocate_on(segment, p, row.len()) else {
        return Err(Refusal::Stale);
    };
    row.put(&mut segment[p * PAGE_SIZE..(p + 1) * PAGE_SIZE], offset);
    segment_steps::update_on(segment, inventory, p);
    Ok(p * IDS_A_PAGE + slot)
}

// On the page that the inventory names, once it is seen to be sound.
fn insert<R: Row>(segment: &mut [u8], inventory: &mut [u8], row: &R) -> Result<usize, Refusal>
    ensures { outcome result segment.new inventory.new
        ≡ insert_step segment.old inventory.old (R.bytes row.now) }
{
    if !segment_pages::sizes_ok(segment, inventory) {
        return Err(Refusal::Size);
    }
    let page = page_for(segment, inventory, row)?;
    if !segment_pages::page_sound(segment, page) {
        return Err(Refusal::Damaged);
    }
    insert_sound_at(segment, inventory, page, row)
}

pub fn insert_record(
    segment: &mut [u8],
    inventory: &mut [u8],
    record: &[u8],
) -> Result<usize, Refusal>
    ensures { outcome result segment.new inventory.new
        ≡ insert_step segment.old inventory.old «record».now }
{
    insert(segment, inventory, &Bytes { bytes: record })
}

// The same with no bytes: all are zeros.
pub fn allocate(segment: &mut [u8], inventory: &mut [u8], size: usize) -> Result<usize, Refusal>
    ensures { outcome result segment.new inventory.new ≡ allocate_step segment.old inventory.old size }
{
    insert(segment, inventory, &Zeros { size })
}

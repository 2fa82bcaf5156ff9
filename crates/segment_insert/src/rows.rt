// Many rows in one call: "It must equal inserting them one at a time in that order: same ids, same pages, same inventory."
//
// A page is not looked at anew for each row. A step leaves a sound page sound and changes no other page, in damaged segments too; so the
// answers are those of one at a time.
// Segment and inventory, and what is known of them: two parameters and clauses, as lib.rt says.
ghost use Rattle.std.specs.Prelude.{◌≡◌, true, ◌&&◌, ◌≤◌, length, eqb};
ghost use Rattle.store.specs.Page.{sound};
ghost use Rattle.store.specs.Segment.{seg_view, size_ok, inv_ok, insert_step};
ghost use Rattle.store.specs.ManyRows.{insert_all, rows_of, total, placed, insert_rows_step};
ghost use Rattle.store.specs.Answers.{outcome, told, ByRow};
ghost use Rattle.store.specs.Laws.Lent.{Within};
ghost use Rattle.segment_insert.specs.Words.{KnownSound};

use crate::row::{Bytes, Row};
use store::{ListRefusal, Refusal};

// How many pages a call remembers. The inventory has 15 entries, so rows of any lengths go to at most 15 pages in turn.
pub const REMEMBERED: usize = 16;

// Whether page p is sound: it is looked at unless this call has found it sound before. `known` has, at its place, a page's number and 1;
// 0 is none.
fn known_sound(segment: &[u8], known: &mut [usize; REMEMBERED], p: usize) -> bool
    requires within { Within segment.now p }
    requires known_sound { KnownSound segment.now known.old }
    ensures { (result ≡ sound ((seg_view segment.now).page p)) × KnownSound segment.now known.new }
{
    let at = p % REMEMBERED;
    if known[at] != p + 1 {
        if !segment_pages::page_sound(segment, p) {
            return false;
        }
        known[at] = p + 1;
    }
    true
}

// One row, where the sizes have been tested.
pub fn insert_row<R: Row>(
    segment: &mut [u8],
    inventory: &mut [u8],
    known: &mut [usize; REMEMBERED],
    row: &R,
) -> Result<usize, Refusal>
    requires inventory_value { (size_ok segment.old && inv_ok inventory.old) ≡ true }
    requires known_sound { KnownSound segment.old known.old }
    ensures { (outcome result segment.new inventory.new
        ≡ insert_step segment.old inventory.old (R.bytes row.now))
        × KnownSound segment.new known.new }
{
    let page = crate::page_for(segment, inventory, row)?;
    if !known_sound(segment, known, page) {
        return Err(Refusal::Damaged);
    }
    crate::insert_sound_at(segment, inventory, page, row)
}

// "At the first refusal it stops, tells how many rows went in, and those rows stay; id places past them are not written."
fn insert_rows(
    segment: &mut [u8],
    inventory: &mut [u8],
    rows: &[u8],
    lengths: &[u64],
    ids: &mut [u64],
) -> Result<usize, ListRefusal>
    requires inventory_value { (size_ok segment.old && inv_ok inventory.old) ≡ true }
    requires lengths_value { (total lengths.now ≡ length rows.now) × (length lengths.now ≤ length ids.old) }
    ensures { (told result ids.new segment.new inventory.new
        ≡ placed ids.old (insert_all segment.old inventory.old (rows_of rows.now lengths.now)))
        × ByRow result }
{
    let mut known = [0usize; REMEMBERED];
    let mut at = 0;
    for k in 0..lengths.len() {
        let end = at + lengths[k] as usize;
        let row = Bytes {
            bytes: &rows[at..end],
        };
        match insert_row(segment, inventory, &mut known, &row) {
            Ok(id) => ids[k] = id as u64,
            Err(refusal) => return Err(ListRefusal::Stopped { rows: k, refusal }),
        }
        at = end;
    }
    Ok(lengths.len())
}

// Whether the lengths sum to n. Their sum may be any number: what is left of n is counted down.
fn sum_to(lengths: &[u64], n: usize) -> bool
    ensures { result ≡ eqb (total lengths.now) n }
{
    let mut left = n;
    for l in lengths {
        let l = *l as usize;
        if left < l {
            return false;
        }
        left -= l;
    }
    left == 0
}

// "Take the rows' bytes end to end, their lengths, and a place for the ids."
pub fn insert_records(
    segment: &mut [u8],
    inventory: &mut [u8],
    rows: &[u8],
    lengths: &[u64],
    ids: &mut [u64],
) -> Result<usize, ListRefusal>
    ensures { (told result ids.new segment.new inventory.new
        ≡ insert_rows_step segment.old inventory.old rows.now lengths.now ids.old)
        × ByRow result }
{
    if !segment_pages::sizes_ok(segment, inventory) {
        return Err(ListRefusal::Size);
    }
    if ids.len() < lengths.len() {
        return Err(ListRefusal::List);
    }
    if !sum_to(lengths, rows.len()) {
        return Err(ListRefusal::List);
    }
    insert_rows(segment, inventory, rows, lengths, ids)
}

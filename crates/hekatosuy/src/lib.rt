// The store for C: the calls of a segment, the scan, repair, the fill report, the exchange file and the polishing rule, with the
// documents' numbers for answers. include/hekatosuy.h declares them.
//
// A slice is a pointer and a length. What a call hands back beside its number it writes through a pointer to one u64; the fill
// report, through a pointer to a tally.
// Each slice is its own parameter, and answers are numbers: so C has them.
#![tactic(auto)]

ghost use Rattle.std.specs.Prelude.{◌≡◌, cond, List, ℕ, ◌^◌, ◌<◌, eqb};
ghost use Rattle.store.specs.Numbers.{id_of, page_no, slot_no};
ghost use Rattle.store.specs.Segment.{insert_step, allocate_step, write_step, resize_step, erase_step, locate_step};
ghost use Rattle.store.specs.Scan.{scan_step};
ghost use Rattle.store.specs.ManyRows.{insert_rows_step};
ghost use Rattle.store.specs.Repair.{repair_step};
ghost use Rattle.store.specs.Report.{report_step};
ghost use Rattle.store.specs.Answers.{answer_no, answer_id, scanned_of, numbers};
ghost use Rattle.exchange.specs.Exchange.{import_step, export_step};
ghost use Rattle.polishing.specs.Polishing.{cleared_step, whole_step};
ghost use Rattle.hekatosuy.specs.Handed.{with_id, without_id, stepped, Positioned};

use answers::{Numbered, answer_no, count};
use segment_scan::OVER_PAGE;
use store::{IDS_A_PAGE, Record, Refusal, Step, Tally};

// The number, with the new record's id where there is one; else `id` keeps what it was.
fn hand_id(answer: Result<usize, Refusal>, id: &mut u64) -> u64
    ensures { (result ≡ answer_no answer) × (id.new ≡ cond (eqb (answer_no answer) 0) (answer_id answer) id.old) }
{
    match answer {
        Ok(new) => {
            *id = new as u64;
            0
        }
        Err(refusal) => u64::from(refusal),
    }
}

pub fn hk_insert_record(segment: &mut [u8], inventory: &mut [u8], bytes: &[u8], id: &mut u64) -> u64
    ensures { record { answer = result; id = id.new; seg = segment.new; inv = inventory.new }
        ≡ with_id id.old (insert_step segment.old inventory.old bytes.now) }
{
    hand_id(segment_insert::insert_record(segment, inventory, bytes), id)
}

// The rows stand end to end; `inserted` is how many went in.
pub fn hk_insert_records(
    segment: &mut [u8],
    inventory: &mut [u8],
    rows: &[u8],
    lengths: &[u64],
    ids: &mut [u64],
    inserted: &mut u64,
) -> u64
    ensures { record {
      answer = result;
      inserted = inserted.new;
      ids = ids.new;
      seg = segment.new;
      inv = inventory.new;
    }
        ≡ insert_rows_step segment.old inventory.old rows.now lengths.now ids.old }
{
    let r = segment_insert::insert_records(segment, inventory, rows, lengths, ids);
    *inserted = count(&r);
    answer_no(&r)
}

pub fn hk_allocate(segment: &mut [u8], inventory: &mut [u8], size: u64, id: &mut u64) -> u64
    ensures { record { answer = result; id = id.new; seg = segment.new; inv = inventory.new }
        ≡ with_id id.old (allocate_step segment.old inventory.old size) }
{
    hand_id(
        segment_insert::allocate(segment, inventory, size as usize),
        id,
    )
}

pub fn hk_write_record(segment: &mut [u8], inventory: &mut [u8], id: u64, bytes: &[u8]) -> u64
    ensures { record { answer = result; id = 0; seg = segment.new; inv = inventory.new }
        ≡ without_id (write_step segment.old inventory.old id bytes.now) }
{
    let r = segment_write::write::write_record(segment, inventory, id as usize, bytes);
    answer_no(&r)
}

pub fn hk_resize_record(segment: &mut [u8], inventory: &mut [u8], id: u64, size: u64) -> u64
    ensures { record { answer = result; id = 0; seg = segment.new; inv = inventory.new }
        ≡ without_id (resize_step segment.old inventory.old id size) }
{
    let r = segment_write::resize::resize_record(segment, inventory, id as usize, size as usize);
    answer_no(&r)
}

pub fn hk_erase_record(segment: &mut [u8], inventory: &mut [u8], id: u64) -> u64
    ensures { record { answer = result; id = 0; seg = segment.new; inv = inventory.new }
        ≡ without_id (erase_step segment.old inventory.old id) }
{
    let r = segment_erase::erase_record(segment, inventory, id as usize);
    answer_no(&r)
}

// The record's place in the segment, without the back id of a target.
pub fn hk_get_record(segment: &[u8], id: u64, offset: &mut u64, length: &mut u64) -> u64
    ensures { record { answer = result; part = record { offset = offset.new; length = length.new } }
        ≡ locate_step segment.now id }
{
    let r = segment_read::find_record(segment, id as usize);
    let part = answers::part(&r);
    *offset = part.offset as u64;
    *length = part.length as u64;
    answer_no(&r)
}

// What a step of the scan hands to C.
#[derive(Clone, Copy)]
pub struct Stepped {
    pub answer: u64,
    pub position: u64,
    pub found: u64,
    pub id: u64,
    pub offset: u64,
    pub length: u64,
}

// A position as one number.
fn position_of(page: usize, slot: usize) -> u64
    requires { (page < 2 ^ 48) × (slot < 65536) }
    ensures { result ≡ id_of page slot }
{
    (page * IDS_A_PAGE + slot) as u64
}

fn hand_step(step: Result<Step, Refusal>) -> Stepped
    requires { (xs : List ℕ) → Positioned (scanned_of step xs) }
    ensures { (xs : List ℕ) → result ≡ stepped (scanned_of step xs) }
{
    let none = Stepped {
        answer: 0,
        position: 0,
        found: 0,
        id: 0,
        offset: 0,
        length: 0,
    };
    match step {
        Ok(Step { found, page, slot }) => {
            let over = Stepped {
                position: position_of(page, slot),
                ..none
            };
            match found {
                Some(Record { id, part }) => Stepped {
                    found: 1,
                    id: id as u64,
                    offset: part.offset as u64,
                    length: part.length as u64,
                    ..over
                },
                None => over,
            }
        }
        Err(refusal) => Stepped {
            answer: u64::from(refusal),
            position: position_of(OVER_PAGE, 0),
            ..none
        },
    }
}

// The step from a position that is one number.
fn step_from(segment: &[u8], position: u64) -> Stepped
    ensures { result ≡ stepped (scan_step segment.now (page_no position) (slot_no position)) }
{
    let at = position as usize;
    let s = segment_scan::scan_step(segment, at / IDS_A_PAGE, at % IDS_A_PAGE);
    hand_step(s)
}

// The next record from `position` on, which is 0 at first and afterwards what the last step left there.
pub fn hk_scan_step(
    segment: &[u8],
    position: &mut u64,
    found: &mut u64,
    id: &mut u64,
    offset: &mut u64,
    length: &mut u64,
) -> u64
    ensures { record {
      answer = result;
      position = position.new;
      found = found.new;
      id = id.new;
      offset = offset.new;
      length = length.new;
    }
        ≡ stepped (scan_step segment.now (page_no position.old) (slot_no position.old)) }
{
    let h = step_from(segment, *position);
    *position = h.position;
    *found = h.found;
    *id = h.id;
    *offset = h.offset;
    *length = h.length;
    h.answer
}

// An entry is three words of `entries`: page, place, what was done. `count` is how many there are, and how many there would be on 11.
pub fn hk_repair(
    segment: &mut [u8],
    inventory: &mut [u8],
    entries: &mut [u64],
    count: &mut u64,
) -> u64
    ensures { record {
      answer = result;
      count = count.new;
      seg = segment.new;
      inv = inventory.new;
      list = entries.new;
    }
        ≡ repair_step segment.old inventory.old entries.old }
{
    let r = segment_repair::repair(segment, inventory, entries);
    *count = answers::count(&r);
    answer_no(&r)
}

// What a report hands to C.
#[derive(Clone, Copy)]
pub struct Tallied {
    pub answer: u64,
    pub tally: Tally,
}

// The report by value, with the number for its answer; the tally as it was where it is refused.
fn report_numbers(segment: &[u8], tally: Tally) -> Tallied
    ensures { record { answer = result.answer; tally = numbers result.tally } ≡ report_step segment.now (numbers tally) }
{
    match fill_report::report_by_value(segment, tally) {
        Ok(sum) => Tallied {
            answer: 0,
            tally: sum,
        },
        Err(refusal) => Tallied {
            answer: refusal.number(),
            tally,
        },
    }
}

// The figures of a segment, added to `tally` where it stands; one that is refused adds nothing.
pub fn hk_fill_report(segment: &[u8], tally: &mut Tally) -> u64
    ensures { record { answer = result; tally = numbers tally.new } ≡ report_step segment.now (numbers tally.old) }
{
    let told = report_numbers(segment, *tally);
    *tally = told.tally;
    told.answer
}

// The records of an exchange file, as new records; `inserted` is how many went in.
pub fn hk_import(segment: &mut [u8], inventory: &mut [u8], file: &[u8], inserted: &mut u64) -> u64
    ensures { record { answer = result; inserted = inserted.new; seg = segment.new; inv = inventory.new }
        ≡ import_step segment.old inventory.old file.now }
{
    let r = exchange::import(segment, inventory, file);
    *inserted = count(&r);
    answer_no(&r)
}

// All readings as an exchange file, in the place that is lent; `length` is the file's and `passed` tells the records that are no readings.
pub fn hk_export(segment: &[u8], file: &mut [u8], length: &mut u64, passed: &mut u64) -> u64
    ensures { record { answer = result; length = length.new; passed = passed.new; place = file.new }
        ≡ export_step segment.now file.old }
{
    let r = exchange::export(segment, file);
    let told = answers::exported(&r);
    *length = told.length as u64;
    *passed = told.passed as u64;
    answer_no(&r)
}

// Whether the mirror is cleared for polishing: 1 or 0, and 0 on refusal.
pub fn hk_cleared(segment: &[u8], mirror: u64, rows: u64, edition: u64, cleared: &mut u64) -> u64
    ensures { record { answer = result; cleared = cleared.new } ≡ cleared_step segment.now mirror rows edition }
{
    let r = polishing::cleared(segment, mirror, rows as usize, edition as usize);
    *cleared = answers::cleared(&r);
    answer_no(&r)
}

// Which readings of the mirror are whole: bit r % 64 of word r / 64 tells of reading r.
pub fn hk_whole_readings(segment: &[u8], mirror: u64, rows: u64, words: &mut [u64]) -> u64
    ensures { record { answer = result; place = words.new } ≡ whole_step segment.now mirror rows words.old }
{
    let r = polishing::whole_readings(segment, mirror, rows as usize, words);
    answer_no(&r)
}

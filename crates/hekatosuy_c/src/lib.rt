// The calls of the library hekatosuy as a static library for C: each with the clauses of the call that it makes. include/hekatosuy.h declares
// them, and ./archive builds libhekatosuy.a from them.
//
// A slice is a pointer and a length. What a call hands back beside its number it writes through a pointer to one u64; the fill
// report, through a pointer to a tally.
// Each slice is its own parameter, and answers are numbers: so C has them.
#![tactic(auto)]

ghost use Rattle.std.specs.Prelude.{◌≡◌};
ghost use Rattle.store.specs.Numbers.{page_no, slot_no};
ghost use Rattle.store.specs.Segment.{insert_step, allocate_step, write_step, resize_step, erase_step, locate_step};
ghost use Rattle.store.specs.Scan.{scan_step};
ghost use Rattle.store.specs.ManyRows.{insert_rows_step};
ghost use Rattle.store.specs.Repair.{repair_step};
ghost use Rattle.store.specs.Report.{report_step};
ghost use Rattle.store.specs.Answers.{numbers};
ghost use Rattle.exchange.specs.Exchange.{import_step, export_step};
ghost use Rattle.polishing.specs.Polishing.{cleared_step, whole_step};
ghost use Rattle.hekatosuy.specs.Handed.{with_id, without_id, stepped};

use store::Tally;

#[unsafe(no_mangle)]
pub extern "C" fn hk_insert_record(
    segment: &mut [u8],
    inventory: &mut [u8],
    bytes: &[u8],
    id: &mut u64,
) -> u64
    ensures { record { answer = result; id = id.new; seg = segment.new; inv = inventory.new }
        ≡ with_id id.old (insert_step segment.old inventory.old bytes.now) }
{
    hekatosuy::hk_insert_record(segment, inventory, bytes, id)
}

#[unsafe(no_mangle)]
pub extern "C" fn hk_insert_records(
    segment: &mut [u8],
    inventory: &mut [u8],
    rows: &[u8],
    lengths: &[u64],
    ids: &mut [u64],
    inserted: &mut u64,
) -> u64
    ensures { record {
      answer = result;
      inserted = inserted.new;
      ids = ids.new;
      seg = segment.new;
      inv = inventory.new;
    }
        ≡ insert_rows_step segment.old inventory.old rows.now lengths.now ids.old }
{
    hekatosuy::hk_insert_records(segment, inventory, rows, lengths, ids, inserted)
}

#[unsafe(no_mangle)]
pub extern "C" fn hk_allocate(
    segment: &mut [u8],
    inventory: &mut [u8],
    size: u64,
    id: &mut u64,
) -> u64
    ensures { record { answer = result; id = id.new; seg = segment.new; inv = inventory.new }
        ≡ with_id id.old (allocate_step segment.old inventory.old size) }
{
    hekatosuy::hk_allocate(segment, inventory, size, id)
}

#[unsafe(no_mangle)]
pub extern "C" fn hk_write_record(
    segment: &mut [u8],
    inventory: &mut [u8],
    id: u64,
    bytes: &[u8],
) -> u64
    ensures { record { answer = result; id = 0; seg = segment.new; inv = inventory.new }
        ≡ without_id (write_step segment.old inventory.old id bytes.now) }
{
    hekatosuy::hk_write_record(segment, inventory, id, bytes)
}

#[unsafe(no_mangle)]
pub extern "C" fn hk_resize_record(
    segment: &mut [u8],
    inventory: &mut [u8],
    id: u64,
    size: u64,
) -> u64
    ensures { record { answer = result; id = 0; seg = segment.new; inv = inventory.new }
        ≡ without_id (resize_step segment.old inventory.old id size) }
{
    hekatosuy::hk_resize_record(segment, inventory, id, size)
}

#[unsafe(no_mangle)]
pub extern "C" fn hk_erase_record(segment: &mut [u8], inventory: &mut [u8], id: u64) -> u64
    ensures { record { answer = result; id = 0; seg = segment.new; inv = inventory.new }
        ≡ without_id (erase_step segment.old inventory.old id) }
{
    hekatosuy::hk_erase_record(segment, inventory, id)
}

#[unsafe(no_mangle)]
pub extern "C" fn hk_get_record(segment: &[u8], id: u64, offset: &mut u64, length: &mut u64) -> u64
    ensures { record { answer = result; part = record { offset = offset.new; length = length.new } }
        ≡ locate_step segment.now id }
{
    hekatosuy::hk_get_record(segment, id, offset, length)
}

#[unsafe(no_mangle)]
pub extern "C" fn hk_scan_step(
    segment: &[u8],
    position: &mut u64,
    found: &mut u64,
    id: &mut u64,
    offset: &mut u64,
    length: &mut u64,
) -> u64
    ensures { record {
      answer = result;
      position = position.new;
      found = found.new;
      id = id.new;
      offset = offset.new;
      length = length.new;
    }
        ≡ stepped (scan_step segment.now (page_no position.old) (slot_no position.old)) }
{
    hekatosuy::hk_scan_step(segment, position, found, id, offset, length)
}

#[unsafe(no_mangle)]
pub extern "C" fn hk_repair(
    segment: &mut [u8],
    inventory: &mut [u8],
    entries: &mut [u64],
    count: &mut u64,
) -> u64
    ensures { record {
      answer = result;
      count = count.new;
      seg = segment.new;
      inv = inventory.new;
      list = entries.new;
    }
        ≡ repair_step segment.old inventory.old entries.old }
{
    hekatosuy::hk_repair(segment, inventory, entries, count)
}

#[unsafe(no_mangle)]
pub extern "C" fn hk_fill_report(segment: &[u8], tally: &mut Tally) -> u64
    ensures { record { answer = result; tally = numbers tally.new } ≡ report_step segment.now (numbers tally.old) }
{
    hekatosuy::hk_fill_report(segment, tally)
}

#[unsafe(no_mangle)]
pub extern "C" fn hk_import(
    segment: &mut [u8],
    inventory: &mut [u8],
    file: &[u8],
    inserted: &mut u64,
) -> u64
    ensures { record { answer = result; inserted = inserted.new; seg = segment.new; inv = inventory.new }
        ≡ import_step segment.old inventory.old file.now }
{
    hekatosuy::hk_import(segment, inventory, file, inserted)
}

#[unsafe(no_mangle)]
pub extern "C" fn hk_export(
    segment: &[u8],
    file: &mut [u8],
    length: &mut u64,
    passed: &mut u64,
) -> u64
    ensures { record { answer = result; length = length.new; passed = passed.new; place = file.new }
        ≡ export_step segment.now file.old }
{
    hekatosuy::hk_export(segment, file, length, passed)
}

#[unsafe(no_mangle)]
pub extern "C" fn hk_cleared(
    segment: &[u8],
    mirror: u64,
    rows: u64,
    edition: u64,
    cleared: &mut u64,
) -> u64
    ensures { record { answer = result; cleared = cleared.new } ≡ cleared_step segment.now mirror rows edition }
{
    hekatosuy::hk_cleared(segment, mirror, rows, edition, cleared)
}

#[unsafe(no_mangle)]
pub extern "C" fn hk_whole_readings(
    segment: &[u8],
    mirror: u64,
    rows: u64,
    words: &mut [u64],
) -> u64
    ensures { record { answer = result; place = words.new } ≡ whole_step segment.now mirror rows words.old }
{
    hekatosuy::hk_whole_readings(segment, mirror, rows, words)
}

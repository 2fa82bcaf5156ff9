// The bench exchange file: "Benches pass readings by file." The mark and the form of a file are known here alone; what of a page is a
// reading (`parts`), for crates above too.
// Segment and inventory stay two parameters, as C lends them, and what is known of them a clause: no type keeps a fact beside a `&mut`.
#![tactic(auto)]

mod format;
mod measure;
pub mod parts;
mod write;

ghost use Rattle.std.specs.Prelude.{◌≡◌, true, ◌&&◌};
ghost use Rattle.store.specs.Refusals.{DONE};
ghost use Rattle.store.specs.Segment.{size_ok, inv_ok};
ghost use Rattle.exchange.specs.Exchange.{parse, without_ids, insert_parsed, import_step, export_step};
ghost use Rattle.exchange.specs.Told.{imported, ByInsert, exported};
ghost use Rattle.exchange.specs.Words.{of_fault, fault_of};

use format::Fault;
use segment_insert::row::Headed;
use segment_insert::rows::{REMEMBERED, insert_row};
use store::Refusal;

// Why an import is refused: by the sizes or by the file; or where it stopped, after so many records, with that insert's refusal.
#[derive(Clone, Copy)]
pub enum ImportRefusal {
    Size,
    Short,
    Mark,
    Long,
    Stopped { records: usize, refusal: Refusal },
}

impl From<Fault> for ImportRefusal {
    ghost from_gives = { λ f r. r ≡ of_fault f };

    fn from(fault: Fault) -> ImportRefusal {
        match fault {
            Fault::Short => ImportRefusal::Short,
            Fault::Mark => ImportRefusal::Mark,
            Fault::Long => ImportRefusal::Long,
        }
    }
}

// What is exported: the file's length, and how many records are passed over, which are no readings.
#[derive(Clone, Copy, Default)]
pub struct Exported {
    pub length: usize,
    pub passed: usize,
}

// Why an export is refused; with what it would be, where the place is too short.
#[derive(Clone, Copy)]
pub enum ExportRefusal {
    Size,
    Damaged,
    Room(Exported),
}

// The records of a file that was read through: "then goes on as Ask 2 does, without id places".
fn insert_file(
    segment: &mut [u8],
    inventory: &mut [u8],
    file: &[u8],
) -> Result<usize, ImportRefusal>
    requires inventory_value { (size_ok segment.old && inv_ok inventory.old) ≡ true }
    requires file_value { fault_of (parse file.now) ≡ DONE }
    ensures { (imported result segment.new inventory.new
        ≡ without_ids (insert_parsed segment.old inventory.old (parse file.now)))
        × ByInsert result }
{
    let mut known = [0usize; REMEMBERED];
    let mut at = 0;
    let mut records = 0;
    while let Some(record) = format::record_at(file, at)? {
        let row = Headed {
            head: record.head,
            bytes: &file[record.data..record.end],
        };
        if let Err(refusal) = insert_row(segment, inventory, &mut known, &row) {
            return Err(ImportRefusal::Stopped { records, refusal });
        }
        at = record.end;
        records += 1;
    }
    Ok(records)
}

// "Refusals: 1, then record by record in file order .., all before any insert; then each insert's own."
pub fn import(segment: &mut [u8], inventory: &mut [u8], file: &[u8]) -> Result<usize, ImportRefusal>
    ensures { (imported result segment.new inventory.new
        ≡ import_step segment.old inventory.old file.now)
        × ByInsert result }
{
    if !segment_pages::sizes_ok(segment, inventory) {
        return Err(ImportRefusal::Size);
    }
    format::read_through(file)?;
    insert_file(segment, inventory, file)
}

// "Export: 1, then 4 for a page that is not sound, then 11 when the lent place is too short, and it writes nothing then."
pub fn export(segment: &[u8], file: &mut [u8]) -> Result<Exported, ExportRefusal>
    ensures { exported result file.new ≡ export_step segment.now file.old }
{
    if !segment_pages::is_segment(segment) {
        return Err(ExportRefusal::Size);
    }
    let Some(sums) = measure::measure_segment(segment) else {
        return Err(ExportRefusal::Damaged);
    };
    if file.len() < sums.length {
        return Err(ExportRefusal::Room(sums));
    }
    write::write_file(segment, file);
    Ok(sums)
}

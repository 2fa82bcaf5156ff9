// The sum of two tallies, if each of its figures fits: "9 TALLY when a figure would pass 2^64 − 1".
ghost use Rattle.store.specs.Report.{added};
ghost use Rattle.store.specs.Answers.{numbers};
ghost use Rattle.fill_report.specs.Words.{Summed};

use store::Tally;

// The figures of the classes.
fn checked_classes(a: [u64; 16], b: [u64; 16]) -> Option<[u64; 16]>
    ensures { Summed (λ l. l) (added a b) result }
{
    let mut sum = a;
    // By number: of a zip with `iter_mut` the refusal's goal stays open.
    for c in 0..16 {
        sum[c] = a[c].checked_add(b[c])?;
    }
    Some(sum)
}

// Figure by figure, as the C header names each (include/hekatosuy.h).
pub fn checked_sum(a: Tally, b: Tally) -> Option<Tally>
    ensures { Summed numbers (added (numbers a) (numbers b)) result }
{
    Some(Tally {
        pages: a.pages.checked_add(b.pages)?,
        fresh_pages: a.fresh_pages.checked_add(b.fresh_pages)?,
        slots: a.slots.checked_add(b.slots)?,
        records: a.records.checked_add(b.records)?,
        record_bytes: a.record_bytes.checked_add(b.record_bytes)?,
        forwarded: a.forwarded.checked_add(b.forwarded)?,
        free_bytes: a.free_bytes.checked_add(b.free_bytes)?,
        classes: checked_classes(a.classes, b.classes)?,
    })
}

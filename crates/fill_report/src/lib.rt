// The fill report: "exact figures over any number of segments". A segment's figures are worked out by value and added to the tally that
// is lent, where it stands; one that is refused adds nothing.
#![tactic(auto)]

mod page;
mod sums;

ghost use Rattle.std.specs.Prelude.{◌≡◌, true};
ghost use Rattle.store.specs.Segment.{seg_view, size_ok};
ghost use Rattle.store.specs.Report.{report_step};
ghost use Rattle.store.specs.Answers.{numbers, reported, summed};
ghost use Rattle.fill_report.specs.Words.{Filled};

use segment_pages::page_of;
use store::{PAGE_SIZE, ReportRefusal, Tally};

// The figures of a segment, page by page; none where a page is not sound.
fn segment_fill(segment: &[u8]) -> Option<Tally>
    requires { size_ok segment.now ≡ true }
    ensures { Filled (seg_view segment.now) result }
{
    let mut tally = Tally::default();
    for p in 0..segment.len() / PAGE_SIZE {
        let page = page_of(segment, p);
        if !page_check::is_sound(page) {
            return None;
        }
        page::add_to(&mut tally, page);
    }
    Some(tally)
}

// "Refusals: 1 and 4 as in 01, then 9 TALLY when a figure would pass 2^64 − 1": by value.
pub fn report_by_value(segment: &[u8], tally: Tally) -> Result<Tally, ReportRefusal>
    ensures { summed result tally ≡ report_step segment.now (numbers tally) }
{
    if !segment_pages::is_segment(segment) {
        return Err(ReportRefusal::Size);
    }
    let Some(figures) = segment_fill(segment) else {
        return Err(ReportRefusal::Damaged);
    };
    sums::checked_sum(tally, figures).ok_or(ReportRefusal::Tally)
}

// "One running tally is lent to each call and updated where it stands." A refused segment's tally stays as it was.
pub fn fill_report(segment: &[u8], tally: &mut Tally) -> Result<(), ReportRefusal>
    ensures { reported result tally.new ≡ report_step segment.now (numbers tally.old) }
{
    *tally = report_by_value(segment, *tally)?;
    Ok(())
}

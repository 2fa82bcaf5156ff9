// One step of a scan: "The scan goes by page and slot, checks each page on reaching it, skips free slots and redirects, and gives a
// target its root's id; past the end each step answers 0 without a record."
// The functions that take a segment, a page and a slot are no methods of held::Scan: they look ahead of where a scan stands.
#![tactic(auto)]

pub mod held;

ghost use Rattle.std.specs.Prelude.{◌≡◌, ◌+◌, ◌/◌, ◌^◌, ◌≤◌, ◌<◌, Some, length};
ghost use Rattle.store.specs.Laws.Slots.{Codable};
ghost use Rattle.store.specs.Laws.Lent.{Within};
ghost use Rattle.store.specs.Segment.{seg_view};
ghost use Rattle.store.specs.Scan.{Scanned, record_at, damaged_at, scan_plan, scan_step};
ghost use Rattle.store.specs.Answers.{step_of, scanned_of};
ghost use Rattle.segment_scan.specs.Pages.{lies_at, well_at, record_or, first_record, on_page, or_later, Counted, RecordOn, LiesOn};

use store::{IDS_A_PAGE, MOST_PAGES, MOST_SLOTS, PAGE_SIZE, Part, Record, Refusal, Slot, Step};

// Where a scan that is over stands: a page past every segment.
pub const OVER_PAGE: usize = MOST_PAGES + 1;

// l bytes from o on lie between data start d and the page's end; of no bytes, o is at most the page's end.
#[tactic(auto, unfolding(crate::specs::Pages::lies_at))]
fn lies_at(d: usize, o: usize, l: usize) -> bool
    requires { o + l < 2 ^ 33 }
    ensures { result ≡ lies_at d o l }
{
    if l == 0 {
        o <= PAGE_SIZE
    } else {
        d <= o && o + l <= PAGE_SIZE
    }
}

// Whether a slot's record lies as on a sound page with data start d.
#[tactic(auto, unfolding(crate::specs::Pages::well_at))]
// That the slot's numbers fit is a clause: as layout::slots says.
fn lies_well(d: usize, s: Slot) -> bool
    requires { Codable s }
    ensures { result ≡ well_at d s }
{
    lies_at(d, s.offset(), s.len()) && (!s.is_target() || 8 <= s.len())
}

// The record of slot k, which lies in its page: with its root's id if it is a target.
#[tactic(auto, using(crate::proofs::Records::record_high, crate::proofs::Records::record_long))]
fn record_at(segment: &[u8], p: usize, k: usize, s: Slot) -> Record
    requires { LiesOn segment.now p k s }
    ensures { step_of (Some result) p (k + 1) segment.now ≡ record_at ((seg_view segment.now).page p) p k }
{
    let o = s.offset();
    let l = s.len();
    let own = p * IDS_A_PAGE + k;
    if s.is_target() {
        let root = segment_pages::back_id_on(segment, p, o);
        return Record {
            id: root,
            part: Part {
                offset: p * PAGE_SIZE + (o + 8),
                length: l - 8,
            },
        };
    }
    Record {
        id: own,
        part: Part {
            offset: p * PAGE_SIZE + o,
            length: l,
        },
    }
}

// The step to slot k's record, which may lie otherwise: from a position inside a page, which no scan may have made, or the page may have
// been damaged since.
fn record_or_damage(segment: &[u8], p: usize, k: usize) -> Result<Step, Refusal>
    requires counted { Counted segment.now p }
    requires record_on { RecordOn segment.now p k }
    ensures { scanned_of result segment.now ≡ record_or ((seg_view segment.now).page p) p k }
{
    let s = segment_pages::slot_on(segment, p, k);
    let d = layout::header::get_data_start(segment_pages::page_of(segment, p));
    if !lies_well(d, s) {
        return Err(Refusal::Damaged);
    }
    Ok(Step {
        found: Some(record_at(segment, p, k, s)),
        page: p,
        slot: k + 1,
    })
}

// The first slot from k on that holds a record, of the page's n.
fn next_record(segment: &[u8], p: usize, k: usize, n: usize) -> Option<usize>
    requires counted { Counted segment.now p }
    requires n_bound { n ≤ 2046 }
    ensures { result ≡ first_record n ((seg_view segment.now).page p) k }
{
    (k..n).find(|&j| segment_pages::slot_on(segment, p, j).is_record())
}

// Whether page p, of n slots, is damaged to a scan at slot k: "checks each page on reaching it", at slot 0; inside it the count alone.
fn damaged_at(segment: &[u8], p: usize, k: usize, n: usize) -> bool
    requires within { Within segment.now p }
    requires n_value { n ≡ ((seg_view segment.now).page p).slot_count }
    ensures { result ≡ damaged_at ((seg_view segment.now).page p) k }
{
    if k != 0 {
        return MOST_SLOTS < n;
    }
    !segment_pages::page_sound(segment, p)
}

// What page p answers from slot k on; nothing if it has no record left.
fn scan_page(segment: &[u8], p: usize, k: usize) -> Result<Option<Step>, Refusal>
    requires within { Within segment.now p }
    requires p_bound { p ≤ 32527 }
    ensures { (d : Scanned) → or_later result segment.now d ≡ on_page ((seg_view segment.now).page p) p k d }
{
    let n = layout::header::get_slot_count(segment_pages::page_of(segment, p));
    if damaged_at(segment, p, k, n) {
        return Err(Refusal::Damaged);
    }
    let Some(j) = next_record(segment, p, k, n) else {
        return Ok(None);
    };
    Ok(Some(record_or_damage(segment, p, j)?))
}

// Page by page, up to the first that answers.
fn scan_pages(segment: &[u8], page: usize, slot: usize) -> Result<Step, Refusal>
    requires { length segment.now / 16384 ≤ 32527 }
    ensures { scanned_of result segment.now ≡ scan_plan (seg_view segment.now) page slot }
{
    let n = segment.len() / PAGE_SIZE;
    let mut k = slot;
    for p in page..n {
        if let Some(step) = scan_page(segment, p, k)? {
            return Ok(step);
        }
        k = 0;
    }
    let over = Step {
        found: None,
        page: page.max(n),
        slot: k,
    };
    Ok(over)
}

// The first record from this position on, and the position after it. From any position: past page 32,527 a scan is over, whatever the segment.
pub fn scan_step(segment: &[u8], page: usize, slot: usize) -> Result<Step, Refusal>
    ensures { scanned_of result segment.now ≡ scan_step segment.now page slot }
{
    if MOST_PAGES < page {
        return Ok(Step {
            found: None,
            page,
            slot,
        });
    }
    if !segment_pages::is_segment(segment) {
        return Err(Refusal::Size);
    }
    scan_pages(segment, page, slot)
}

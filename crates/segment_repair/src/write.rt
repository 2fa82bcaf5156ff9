// The changes written, page by page upward, each with its entry.
// The segment and its marks stay two parameters here: no fact can be kept in a type beside what is lent to be written. So do the list and the
// number of its next entry: in a type, each function would have to promise besides that it still lends the same list.
ghost use Rattle.std.specs.Prelude.{◌≡◌, true, ◌+◌, ◌*◌, ◌/◌, ◌%◌, ◌≤◌, length};
ghost use Rattle.store.specs.Numbers.{put};
ghost use Rattle.store.specs.Page.{view};
ghost use Rattle.store.specs.Segment.{page_of};
ghost use Rattle.store.specs.Repair.{standing, lost, seg_bytes, page_entries, seg_entries, words};
ghost use Rattle.store.specs.Laws.Lent.{Within};
ghost use Rattle.segment_judge.specs.Words.{Known, UsedPageOn};
ghost use Rattle.segment_repair.specs.Words.{Written};

use crate::state::{State, state_of};
use crate::tell;
use crate::tell::What;
use layout::header::Header;
use segment_judge::{Judge, Sound};
use segment_pages::page_of;
use store::PAGE_SIZE;

// A page in use, of n slots, gone through in full; answers the number of the next entry.
fn write_mended(
    segment: &mut [u8],
    sound: &Sound,
    p: usize,
    n: usize,
    entries: &mut [u64],
    at: usize,
) -> usize
    requires known { Known segment.old sound.now × UsedPageOn segment.old p n }
    requires p_in_bounds { 3 * (at + length (page_entries (standing segment.old) p)) ≤ length entries.old }
    ensures { Written segment.old segment.new entries.old entries.new p at result }
{
    let deeds = Judge::new(segment, sound).judge_page(p, n);
    let next = tell::tell_slots(entries, at, p, n, &deeds);
    let rest = segment.split_at_mut(p * PAGE_SIZE).1;
    if !page_repair::mend::mend(rest.first_chunk_mut().unwrap(), n, &deeds) {
        return next;
    }
    tell::tell(entries, next, p, What::HeaderWorkedOut);
    next + 1
}

// The same; one that is sound, and of which no slot changes, stays as it is.
fn write_used(
    segment: &mut [u8],
    sound: &Sound,
    p: usize,
    n: usize,
    entries: &mut [u64],
    at: usize,
) -> usize
    requires known { Known segment.old sound.now × UsedPageOn segment.old p n }
    requires p_in_bounds { 3 * (at + length (page_entries (standing segment.old) p)) ≤ length entries.old }
    ensures { Written segment.old segment.new entries.old entries.new p at result }
{
    let judge = Judge::new(segment, sound);
    if judge.is_sound(p) && judge.all_stay(p, n) {
        return at;
    }
    write_mended(segment, sound, p, n, entries, at)
}

// "gets a zero header".
fn write_lost(segment: &mut [u8], p: usize, entries: &mut [u64], at: usize) -> usize
    requires within { Within segment.old p × (lost (view (page_of segment.old p)) ≡ true) }
    requires p_in_bounds { 3 * (at + length (page_entries (standing segment.old) p)) ≤ length entries.old }
    ensures { Written segment.old segment.new entries.old entries.new p at result }
{
    let rest = segment.split_at_mut(p * PAGE_SIZE).1;
    Header::default().write(rest.first_chunk_mut().unwrap());
    tell::tell(entries, at, p, What::HeaderZeroed);
    at + 1
}

fn write_page(segment: &mut [u8], sound: &Sound, p: usize, entries: &mut [u64], at: usize) -> usize
    requires known { Known segment.old sound.now × Within segment.old p }
    requires p_in_bounds { 3 * (at + length (page_entries (standing segment.old) p)) ≤ length entries.old }
    ensures { Written segment.old segment.new entries.old entries.new p at result }
{
    match state_of(page_of(segment, p)) {
        State::Lost => write_lost(segment, p, entries, at),
        State::Fresh => at,
        State::Used { slots } => write_used(segment, sound, p, slots, entries, at),
    }
}

pub fn write_pages(segment: &mut [u8], sound: &Sound, entries: &mut [u64]) -> usize
    requires { Known segment.old sound.now × (length segment.old % 16384 ≡ 0)
        × (3 * length (seg_entries (standing segment.old) (length segment.old / 16384)) ≤ length entries.old) }
    ensures { (segment.new ≡ seg_bytes (standing segment.old) (length segment.old / 16384) segment.old)
        × (entries.new
        ≡ put entries.old 0 (words (seg_entries (standing segment.old) (length segment.old / 16384))))
        × (result ≡ length (seg_entries (standing segment.old) (length segment.old / 16384))) }
{
    let mut at = 0;
    for p in 0..segment.len() / PAGE_SIZE {
        at = write_page(segment, sound, p, entries, at);
    }
    at
}

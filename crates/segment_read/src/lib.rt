// Reading a record by its id: "A read answers the part of the lent segment that is the record, without the 8 bytes."
#![tactic(auto)]

ghost use Rattle.std.specs.Prelude.{◌≡◌, ◌+◌, ◌^◌, ◌≤◌, ◌<◌};
ghost use Rattle.store.specs.Segment.{seg_view, part_on, read_step, locate_step};
ghost use Rattle.store.specs.Answers.{located, read_as};
ghost use Rattle.store.specs.Laws.Lent.{RootIs};
ghost use Rattle.store.specs.declared.Slot.TheVariants.{Target};
ghost use Rattle.segment_read.specs.Parts.{followed, locate_by};

use store::{IDS_A_PAGE, PAGE_SIZE, Part, Refusal, Slot};

// A target on page p, without the 8 bytes of its back id.
fn target_part(p: usize, offset: usize, length: usize) -> Part
    requires { (p < 2 ^ 48) × (8 ≤ length) × (offset + length ≤ 16384) }
    ensures { result ≡ part_on p (Target offset length) }
{
    Part {
        offset: p * PAGE_SIZE + (offset + 8),
        length: length - 8,
    }
}

// The record of id i, whose slot is a redirect to t: the target's page is looked at only now, and 4 unless it points back.
fn follow(segment: &[u8], i: usize, t: usize) -> Result<Part, Refusal>
    ensures { located result ≡ followed (seg_view segment.now) i t }
{
    if !segment_pages::points_back(segment, i, t) {
        return Err(Refusal::Damaged);
    }
    let p = t / IDS_A_PAGE;
    let Slot::Target { offset, length } = segment_pages::slot_on(segment, p, t % IDS_A_PAGE) else {
        return Err(Refusal::Damaged);
    };
    Ok(target_part(p, offset, length))
}

// The record of id i by its own slot, on a page that is sound. "Reading a target's own id gives its data, as the Rust does."
fn read_slot(segment: &[u8], i: usize, s: Slot) -> Result<Part, Refusal>
    requires { RootIs segment.now i s }
    ensures { located result ≡ locate_by (seg_view segment.now) i s }
{
    match s {
        Slot::Ordinary { offset, length } => Ok(Part {
            offset: i / IDS_A_PAGE * PAGE_SIZE + offset,
            length,
        }),
        Slot::Free => Err(Refusal::NoRecord),
        Slot::Redirect { id } => follow(segment, i, id),
        Slot::Target { offset, length } => Ok(target_part(i / IDS_A_PAGE, offset, length)),
    }
}

// The part of the segment that is the record of this id. Refusals in order: 1, 2, 4 of its own page, 5, 4 of its target.
pub fn find_record(segment: &[u8], id: usize) -> Result<Part, Refusal>
    ensures { located result ≡ locate_step segment.now id }
{
    if !segment_pages::is_segment(segment) {
        return Err(Refusal::Size);
    }
    let slot = segment_pages::root_of(segment, id)?;
    read_slot(segment, id, slot)
}

// The record of this id: its bytes, where they lie in the segment.
pub fn get_record(segment: &[u8], id: usize) -> Result<&[u8], Refusal>
    ensures { read_as (λ bytes. bytes.now) result ≡ read_step segment.now id }
{
    let Part { offset, length } = find_record(segment, id)?;
    Ok(&segment[offset..offset + length])
}

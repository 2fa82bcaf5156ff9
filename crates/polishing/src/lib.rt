// The polishing rule: "cleared when ..", exactly then, by the readings that are whole. All pages are checked before an answer is given, and every
// doubt is a no.
#![tactic(auto)]

mod heads;
mod readings;
mod rows;
mod rule;
mod wanted;
mod windows;

ghost use Rattle.std.specs.Prelude.{◌≡◌};
ghost use Rattle.polishing.specs.Polishing.{cleared_step, whole_step};
ghost use Rattle.polishing.specs.Told.{cleared_by, listed_by};

use readings::Readings;
use rule::Edition;
use windows::WINDOWS;

// Why the rule gives no answer.
#[derive(Clone, Copy)]
pub enum RuleRefusal {
    Size,
    Rule,
    Damaged,
    Room,
}

// "Refusals: 1, then 14 RULE .., then 4."
// The edition is a number, as C gives it: an Edition would ask more of callers.
pub fn cleared(
    segment: &[u8],
    mirror: u64,
    rows: usize,
    edition: usize,
) -> Result<bool, RuleRefusal>
    ensures { cleared_by result ≡ cleared_step segment.now mirror rows edition }
{
    if !segment_pages::is_segment(segment) {
        return Err(RuleRefusal::Size);
    }
    let edition = Edition::try_from(edition)?;
    let readings = Readings::of(segment, mirror as usize, rows)?;
    Ok(readings.are_enough(edition))
}

// Which readings are whole, so that a person sees why: 1, 14 and 4 as above, then 11 for a place of fewer than 1,024 words.
pub fn whole_readings(
    segment: &[u8],
    mirror: u64,
    rows: usize,
    place: &mut [u64],
) -> Result<(), RuleRefusal>
    ensures { listed_by result place.new ≡ whole_step segment.now mirror rows place.old }
{
    if !segment_pages::is_segment(segment) {
        return Err(RuleRefusal::Size);
    }
    let readings = Readings::of(segment, mirror as usize, rows)?;
    if place.len() < WINDOWS {
        return Err(RuleRefusal::Room);
    }
    readings.write(place);
    Ok(())
}

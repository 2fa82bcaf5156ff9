// A mirror's whole readings, window by window: the pages are checked and the windows marked once, and a window without a mark takes no pass.
ghost use Rattle.std.specs.Prelude.{◌≡◌, true, ◌≤◌, ◌<◌, length, IfOk, IfErr};
ghost use Rattle.store.specs.Numbers.{put};
ghost use Rattle.store.specs.Report.{all_sound};
ghost use Rattle.store.specs.Segment.{seg_view, size_ok};
ghost use Rattle.polishing.specs.Polishing.{whole_in, words, word, rows_named, met, demands_of};
ghost use Rattle.polishing.specs.Words.{windows_of, edition_number, RefusedBy};

use crate::RuleRefusal;
use crate::rows::MOST_ROWS;
use crate::rule::{Counts, Edition};
use crate::wanted::Wanted;
use crate::windows::{WINDOWS, marked_windows};

// The segment, whose pages are sound, and the windows in which the mirror has a record.
#[derive(Drop)]
pub struct Readings<'a> {
    segment: &'a [u8],
    marked: [bool; WINDOWS],
    mirror: usize,
    rows: usize,
    ghost size: { size_ok segment.now ≡ true },
    ghost sounds: { all_sound (seg_view segment.now) ≡ true },
    ghost marks: { marked ≡ windows_of mirror (seg_view segment.now) },
    ghost named: { rows_named rows ≡ true },
}

impl<'a> Readings<'a> {
    // "14 RULE for .. rows outside 1 to 2,048", and then 4 for a page that is not sound.
    pub fn of(segment: &'a [u8], mirror: usize, rows: usize) -> Result<Readings<'a>, RuleRefusal>
        requires { size_ok segment.now ≡ true }
        ensures of { IfOk result (λ r. (r.segment.now ≡ segment.now) × (r.mirror ≡ mirror) × (r.rows ≡ rows)) }
        ensures refused { IfErr result (RefusedBy segment.now rows) }
    {
        if !(1..=MOST_ROWS).contains(&rows) {
            return Err(RuleRefusal::Rule);
        }
        let Some(marked) = marked_windows(segment, mirror) else {
            return Err(RuleRefusal::Damaged);
        };
        Ok(Readings {
            segment,
            marked,
            mirror,
            rows,
        })
    }

    // The whole readings of window w.
    fn word(&self, w: usize) -> usize
        requires { w < 1024 }
        ensures { result ≡ word (whole_in self.now.segment.now self.now.mirror self.now.rows) w }
    {
        if !self.marked[w] {
            return 0;
        }
        let wanted = Wanted {
            mirror: self.mirror,
            rows: self.rows,
            window: w,
        };
        crate::rows::whole_in(self.segment, wanted)
    }

    // Until the rule is met: more can't turn a yes into a no.
    pub fn are_enough(&self, edition: Edition) -> bool
        ensures { result ≡ met (whole_in self.now.segment.now self.now.mirror self.now.rows) (demands_of (edition_number edition)) }
    {
        let demands = edition.demands();
        let mut counts = Counts::default();
        for w in 0..WINDOWS {
            if counts.meet(demands) {
                return true;
            }
            counts = counts.with_window(w, self.word(w));
        }
        counts.meet(demands)
    }

    // A word for each window.
    pub fn write(&self, place: &mut [u64])
        requires { 1024 ≤ length place.old }
        ensures { place.new ≡ put place.old 0 (words (whole_in self.now.segment.now self.now.mirror self.now.rows)) }
    {
        for w in 0..WINDOWS {
            place[w] = self.word(w) as u64;
        }
    }
}

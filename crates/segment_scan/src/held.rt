// "A scan holds the segment it reads and its position in it."
ghost use Rattle.std.specs.Prelude.{◌≡◌};
ghost use Rattle.store.specs.Scan.{scan_step};
ghost use Rattle.store.specs.Answers.{scanned_of};
ghost use Rattle.segment_scan.specs.Held.{moved_to};

use crate::OVER_PAGE;
use store::{Refusal, Step};

#[derive(Clone, Copy)]
pub struct Scan<'a> {
    pub segment: &'a [u8],
    pub page: usize,
    pub slot: usize,
}

impl<'a> Scan<'a> {
    // A scan of the segment from its first page on.
    pub fn new(segment: &'a [u8]) -> Self
        ensures { (result.segment ≡ segment.entry) × (result.page ≡ 0) × (result.slot ≡ 0) }
    {
        Scan {
            segment,
            page: 0,
            slot: 0,
        }
    }

    // The next record; the scan moves on where it stands: "every later step of either answers 0 without a record."
    pub fn advance(&mut self) -> Result<Step, Refusal>
        ensures { (scanned_of result self.old.segment.now ≡ scan_step self.old.segment.now self.old.page self.old.slot)
            × (self.new ≡ moved_to self.old (scan_step self.old.segment.now self.old.page self.old.slot)) }
    {
        let step = crate::scan_step(self.segment, self.page, self.slot);
        (self.page, self.slot) = match step {
            Ok(Step { page, slot, .. }) => (page, slot),
            Err(_) => (OVER_PAGE, 0),
        };
        step
    }
}

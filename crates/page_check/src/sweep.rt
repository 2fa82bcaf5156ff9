// A pass over slots whose records lie in order, each below the one before.
// The page stays a parameter beside its header: as header.rt says.
ghost use Rattle.std.specs.Prelude.{IfSome};
ghost use Rattle.store.specs.Page.{view};
ghost use Rattle.layout.specs.Run.{Counted};
ghost use Rattle.page_check.specs.Fit.{Sums};

use layout::header::Header;
use store::{PAGE_SIZE, Page};

// The sum of the records' lengths, if they fit. It may only say yes: records in another order can lie well too. `low` is where the last
// record begins, so what ends there overlaps none before it.
pub fn sweep(page: &Page, header: Header) -> Option<usize>
    requires { Counted page.now header.count }
    ensures { IfSome result (Sums (view page.now) header) }
{
    let mut low = PAGE_SIZE;
    let mut total = 0;
    for k in 0..header.count {
        let run = crate::slot::run_at(page, k, header.first, low)?;
        low = run.offset;
        total += run.length;
    }
    (header.start <= low).then_some(total)
}

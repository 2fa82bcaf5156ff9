// Records in any order: a map of one bit for each byte of the page, on which each record claims its own. A record that is refused ends
// the check, so what the map then holds is never read.
// The page stays a parameter beside its header: as header.rt says.
ghost use Rattle.std.specs.Prelude.{◌≡◌, true, ◌+◌, ◌≤◌, ◌<◌, get_or, set};
ghost use Rattle.std.specs.Int.Bits.{bit_and, bit_or};
ghost use Rattle.store.specs.Page.{view};
ghost use Rattle.layout.specs.Run.{Counted};
ghost use Rattle.page_check.specs.Fit.{Tells, Passed};
ghost use Rattle.page_check.specs.Map.{Mask, Clear, Claims, Blank};

use layout::header::Header;
use store::{PAGE_SIZE, Page, Part};

// One bit for each byte of a page.
pub const WORDS: usize = PAGE_SIZE / 64;

pub type Map = [usize; WORDS];

// A word with every bit set.
const ONES: usize = usize::MAX;

// The bits of a word from a on.
pub fn bits_from(a: usize) -> usize
    requires { a < 64 }
    ensures { Mask result a 64 }
{
    ONES - ((1 << a) - 1)
}

// The bits of a word up to b.
pub fn bits_to(b: usize) -> usize
    requires { b < 64 }
    ensures { Mask result 0 (b + 1) }
{
    ONES >> (63 - b)
}

// Sets the bits m of word i, if none of them is set.
fn claim_word(used: &mut Map, i: usize, m: usize) -> bool
    requires { i < 256 }
    ensures { Tells result (bit_and (get_or used.old i 0) m ≡ 0)
        × (result ≡ true → used.new ≡ set used.old i (bit_or (get_or used.old i 0) m)) }
{
    let w = used[i];
    if w & m != 0 {
        return false;
    }
    used[i] = w | m;
    true
}

// Claims the bytes from o on below `end`, word by word: the first from o's bit on, the last up to that of the last byte.
pub fn claim(used: &mut Map, o: usize, end: usize) -> bool
    requires { (o < end) × (end ≤ 16384) }
    ensures { Claims result (Clear used.old o end) used.old used.new o end }
{
    let last = (end - 1) / 64;
    let mut m = bits_from(o % 64);
    for i in o / 64..last {
        if !claim_word(used, i, m) {
            return false;
        }
        m = ONES;
    }
    claim_word(used, last, m & bits_to((end - 1) % 64))
}

// Puts a record on the map. One of no bytes claims none, and lies anywhere.
fn claim_record(used: &mut Map, d: usize, run: Part) -> bool
    requires { run.offset + run.length ≤ 16384 }
    ensures { Claims result ((0 < run.length → d ≤ run.offset) × Clear used.old run.offset (run.offset + run.length))
        used.old used.new run.offset (run.offset + run.length) }
{
    if run.length == 0 {
        return true;
    }
    if run.offset < d {
        return false;
    }
    claim(used, run.offset, run.offset + run.length)
}

// "every record of positive length lies between data start and 16,384 and overlaps no other; a record of length 0 has an offset of at
// most 16,384; a target has length 8 or more": every slot is looked at, so a no is as good as a yes. A loop beside sweep's: in a pass
// for both, each would have to say by a law what its own state, the lowest offset or the map, holds of the slots before.
pub fn claim_all(page: &Page, header: Header, used: &mut Map) -> Option<usize>
    requires { Counted page.now header.count × Blank used.old }
    ensures { Passed (view page.now) header result }
{
    let mut total = 0;
    for k in 0..header.count {
        let run = crate::slot::run_at(page, k, header.first, PAGE_SIZE)?;
        if !claim_record(used, header.start, run) {
            return None;
        }
        total += run.length;
    }
    Some(total)
}

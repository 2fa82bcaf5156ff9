// One bit each for a run of things, in words of 64: the bytes of a page, the pages of a segment.
ghost use Rattle.std.specs.Prelude.{◌≡◌, ◌+◌, ◌/◌, ◌≤◌, ◌<◌, length};
ghost use Rattle.page_check.specs.Fit.{Tells};
ghost use Rattle.page_check.specs.Map.{mark, Clear, Claimed};

use page_check::map::WORDS;

// Whether bit i is set.
pub fn is_marked(used: &[usize], i: usize) -> bool
    requires { i / 64 < length used.now }
    ensures { Tells result (mark used.now i ≡ 1) }
{
    let at = i / 64;
    (used[at] >> (i % 64)) % 2 == 1
}

// Sets bit i, which is not set.
pub fn set_mark(used: &mut [usize], i: usize)
    requires { (i / 64 < length used.old) × Clear used.old i (i + 1) }
    ensures { Claimed used.old used.new i (i + 1) × (length used.new ≡ length used.old) }
{
    used[i / 64] |= 1 << (i % 64);
}

// Whether no bit from o on below `end` is set: the first word from o's bit on, the last up to that of the last one.
pub fn is_clear(used: &[usize; WORDS], o: usize, end: usize) -> bool
    requires { (o < end) × (end ≤ 16384) }
    ensures { Tells result (Clear used.now o end) }
{
    let last = (end - 1) / 64;
    let mut m = page_check::map::bits_from(o % 64);
    for i in o / 64..last {
        if used[i] & m != 0 {
            return false;
        }
        m = usize::MAX;
    }
    used[last] & (m & page_check::map::bits_to((end - 1) % 64)) == 0
}

// Runs of bytes: copied in, saved, moved within a page, cleared.
#![tactic(auto)]

ghost use Rattle.std.specs.Prelude.{◌≡◌, ◌+◌, ◌≤◌, length};
ghost use Rattle.store.specs.Numbers.{cut, put, zeros, fit};

// n zeros from `at` on.
#[tactic(auto, using(crate::proofs::RunLaws::part))]
pub fn zero_fill(page: &mut [u8], at: usize, n: usize)
    requires { at + n ≤ length page.old }
    ensures { page.new ≡ put page.old at (zeros n) }
{
    page[at..at + n].fill(0);
}

// All of src from `at` on, in a loop.
#[tactic(auto, using(crate::proofs::RunLaws::part))]
fn copy_run(page: &mut [u8], at: usize, src: &[u8])
    requires { at + length src.now ≤ length page.old }
    ensures { page.new ≡ put page.old at src.now }
{
    page[at..at + src.len()].copy_from_slice(src);
}

// How many bytes are copied at once.
const BLOCK: usize = 32;

// A block from `at` on, by value: so the compiler moves it in four instructions, where of two runs that are lent it does not know that
// they lie apart.
fn copy_block(page: &mut [u8], at: usize, src: &[u8])
    requires { (length src.now ≡ 32) × (at + 32 ≤ length page.old) }
    ensures { page.new ≡ put page.old at src.now }
{
    let mut block = [0; BLOCK];
    block.copy_from_slice(src);
    copy_run(page, at, &block);
}

// All of src from `at` on: its first block, those that follow, and its last one, of which some bytes may stand there already. The first
// stands before the loop, which most records then pass by: with all blocks in one, by as_chunks, 40 bytes took 22 instructions more.
// The loop counts its blocks: by step_by it tested twice for each and was not unrolled, and export of rows of 1,000 took half as much again.
pub fn copy_in(page: &mut [u8], at: usize, src: &[u8])
    requires { at + length src.now ≤ length page.old }
    ensures { page.new ≡ put page.old at src.now }
{
    let n = src.len();
    if n < BLOCK {
        copy_run(page, at, src);
        return;
    }
    let last = n - BLOCK;
    copy_block(page, at, &src[..BLOCK]);
    let mut k = BLOCK;
    for _ in 1..(n - 1) / BLOCK {
        copy_block(page, at + k, &src[k..k + BLOCK]);
        k += BLOCK;
    }
    copy_block(page, at + last, &src[last..]);
}

// The n bytes at `at`, to the front of `to`: a record's bytes saved by value, for its page may be compactified.
pub fn save(page: &[u8], at: usize, n: usize, to: &mut [u8])
    requires { (at + n ≤ length page.now) × (n ≤ length to.old) }
    ensures { to.new ≡ put to.old 0 (cut page.now at n) }
{
    copy_in(to, 0, &page[at..at + n]);
}

// src from `at` on, cut off or filled up with zeros to `size` bytes.
#[tactic(auto, using(crate::proofs::RunLaws::fit_put))]
pub fn fit_in(page: &mut [u8], at: usize, src: &[u8], size: usize)
    requires { at + size ≤ length page.old }
    ensures { page.new ≡ put page.old at (fit size src.now) }
{
    let n = size.min(src.len());
    copy_in(page, at, &src[..n]);
    zero_fill(page, at + n, size - n);
}

// The n bytes at `from` to `to`, also where the two runs overlap. Where they are one run nothing is to be done: compactify finds most
// records in their place.
#[tactic(auto, using(crate::proofs::RunLaws::moved, store::proofs::Laws::Numbers::put_own))]
pub fn move_within(page: &mut [u8], from: usize, n: usize, to: usize)
    requires { (from + n ≤ length page.old) × (to + n ≤ length page.old) }
    ensures { page.new ≡ put page.old to (cut page.old from n) }
{
    if to == from {
        return;
    }
    page.copy_within(from..from + n, to);
}

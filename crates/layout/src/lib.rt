// The leaves: numbers at an offset, the slot codec and the header.
#![tactic(auto)]

pub mod header;
pub mod little;
pub mod slots;

ghost use Rattle.std.specs.Prelude.{◌≡◌, ◌+◌, ◌≤◌, length};
ghost use Rattle.store.specs.Numbers.{put, to_be};
ghost use Rattle.layout.specs.Run.{Read};

// The weight of the high half of eight bytes.
const HALF: usize = 1 << 32;

// The number of N bytes at `at`, the highest first. The compiler makes one load of it.
fn read<const N: usize>(page: &[u8], at: usize) -> usize
    requires { (N ≤ 8) × (at + N ≤ length page.now) }
    ensures { Read N at page.now result }
{
    let mut number = [0; 8];
    number[8 - N..].copy_from_slice(&page[at..at + N]);
    usize::from_be_bytes(number)
}

// The lowest N bytes of v to `at`, in one store.
fn write<const N: usize>(page: &mut [u8], at: usize, v: usize)
    requires { (N ≤ 8) × (at + N ≤ length page.old) }
    ensures { page.new ≡ put page.old at (to_be N v) }
{
    page[at..at + N].copy_from_slice(&v.to_be_bytes()[8 - N..]);
}

// The widths of the format by name, which callers in other crates say in place of a number.

// The number of two bytes at `at`, the highest first.
pub fn get_u16(page: &[u8], at: usize) -> usize
    requires { at + 2 ≤ length page.now }
    ensures { Read 2 at page.now result }
{
    read::<2>(page, at)
}

// The number of four bytes at `at`, the highest first.
pub fn get_u32(page: &[u8], at: usize) -> usize
    requires { at + 4 ≤ length page.now }
    ensures { Read 4 at page.now result }
{
    read::<4>(page, at)
}

// The number of eight bytes at `at`, the highest first.
pub fn get_u64(page: &[u8], at: usize) -> usize
    requires { at + 8 ≤ length page.now }
    ensures { Read 8 at page.now result }
{
    read::<8>(page, at)
}

// The lowest two bytes of v to `at`.
pub fn put_u16(page: &mut [u8], at: usize, v: usize)
    requires { at + 2 ≤ length page.old }
    ensures { page.new ≡ put page.old at (to_be 2 v) }
{
    write::<2>(page, at, v);
}

// The lowest four bytes of v to `at`.
pub fn put_u32(page: &mut [u8], at: usize, v: usize)
    requires { at + 4 ≤ length page.old }
    ensures { page.new ≡ put page.old at (to_be 4 v) }
{
    write::<4>(page, at, v);
}

// The eight bytes of v to `at`.
pub fn put_u64(page: &mut [u8], at: usize, v: usize)
    requires { at + 8 ≤ length page.old }
    ensures { page.new ≡ put page.old at (to_be 8 v) }
{
    write::<8>(page, at, v);
}

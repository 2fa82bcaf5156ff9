// The inventory of free space: a nibble for each page, and for each class the lowest page that suits. How long it is and how many
// pages it counts is its caller's: it needs `Room` for them.
// How long it is stays a clause: `find_page` takes any 120 bytes and more, and the type of a page would ask more of its callers.
#![tactic(auto)]

ghost use Rattle.std.specs.Prelude.{◌≡◌, ◌+◌, ◌-◌, ◌*◌, ◌/◌, ◌<◌, ◌≤◌, length};
ghost use Rattle.store.specs.Inventory.{class_of, nibble_at, set_nibble, entry_at, set_entry, Room, found_in, run_end};
ghost use Rattle.store.specs.Inventory.{next_page, set_from, pulled_back, update};

use layout::little::{get_u64_le, put_u64_le};
use store::ROOM;

// The classes, and so the entries.
const CLASSES: usize = 15;

// The nibbles that the entries take up: page p's nibble is number p + NIBBLES_BEFORE.
const NIBBLES_BEFORE: usize = 240;

// The class of a page with `used` bytes in use: document 01's table, which stands for the Rust's `encode`.
pub fn class_of(used: usize) -> usize
    ensures { result ≡ class_of used }
{
    match used {
        0..=0 => 1,
        1..=4093 => 2,
        4094..=6487 => 3,
        6488..=8186 => 4,
        8187..=9503 => 5,
        9504..=10580 => 6,
        10581..=11490 => 7,
        11491..=12279 => 8,
        12280..=12974 => 9,
        12975..=13596 => 10,
        13597..=14159 => 11,
        14160..=14673 => 12,
        14674..=15145 => 13,
        15146..=15583 => 14,
        15584..=16372 => 15,
        _ => 15,
    }
}

// Nibble j, "low half first". Page p's is number p + NIBBLES_BEFORE, behind the entries.
fn read_nibble(inventory: &[u8], j: usize) -> usize
    requires { j / 2 < length inventory.now }
    ensures { (result ≡ nibble_at inventory.now j) × (result < 16) }
{
    let at = j / 2;
    let b = usize::from(inventory[at]);
    if j % 2 == 0 { b % 16 } else { b / 16 }
}

// Nibble j becomes v.
fn write_nibble(inventory: &mut [u8], j: usize, v: usize)
    requires { (j / 2 < length inventory.old) × (v < 16) }
    ensures { inventory.new ≡ set_nibble inventory.old j v }
{
    let at = j / 2;
    let b = usize::from(inventory[at]);
    if j % 2 == 0 {
        inventory[at] = (b / 16 * 16 + v) as u8;
    } else {
        inventory[at] = (v * 16 + b % 16) as u8;
    }
}

// Entry c (the Rust's read_cache_for_size_class).
fn read_entry(inventory: &[u8], c: usize) -> usize
    requires { 8 * c + 8 ≤ length inventory.now }
    ensures { result ≡ entry_at inventory.now c }
{
    get_u64_le(inventory, 8 * c)
}

// Entry c becomes v (the Rust's write_cache_for_size_class).
fn write_entry(inventory: &mut [u8], c: usize, v: usize)
    requires { 8 * c + 8 ≤ length inventory.old }
    ensures { inventory.new ≡ set_entry inventory.old c v }
{
    put_u64_le(inventory, 8 * c, v);
}

// The page for a request that needs `need` bytes, of a segment of n pages.
pub fn find_page(inventory: &[u8], n: usize, need: usize) -> Option<usize>
    requires { 120 ≤ length inventory.now }
    ensures { result ≡ found_in inventory.now n need }
{
    let used = ROOM.checked_sub(need)?;
    let page = read_entry(inventory, class_of(used) - 1);
    (page < n).then_some(page)
}

// Of the entries from `old` up and below `new`, where those that name `page` end.
fn run_end(inventory: &[u8], page: usize, old: usize, new: usize) -> usize
    requires { (120 ≤ length inventory.now) × (old ≤ 15) × (new ≤ 15) }
    ensures { (result ≡ run_end inventory.now page old (new - old)) × (result ≤ 15) }
{
    for c in old..new {
        if read_entry(inventory, c) != page {
            return c;
        }
    }
    old.max(new)
}

// Entries end - 1 down to `old` become v.
fn fill_entries(inventory: &mut [u8], old: usize, end: usize, v: usize)
    requires { (120 ≤ length inventory.old) × (end ≤ 15) }
    ensures { inventory.new ≡ set_from (λ _. v) old (end - old) inventory.old }
{
    for u in (old..end).rev() {
        write_entry(inventory, u, v);
    }
}

// Entries end - 1 down to `old` move to the next page after `page` whose nibble suits, "n if none". A page that suits an entry suits
// those above it too, so the pages are gone through once: each takes, from the top, the entries that are left and that it suits.
fn move_entries(inventory: &mut [u8], n: usize, page: usize, old: usize, end: usize)
    requires room { Room inventory.old n }
    requires page_lt_n { (page < n) × (end ≤ 15) }
    ensures { inventory.new ≡ set_from (next_page inventory.old n page) old (end - old) inventory.old }
{
    let mut u = end;
    if old < u {
        'pages: for p in page + 1..n {
            let nibble = read_nibble(inventory, p + NIBBLES_BEFORE);
            // Most pages suit none of the entries left; the entries' loop is dearer to enter than this test.
            if u <= nibble {
                continue;
            }
            // Counted by hand: what is left of the entries is what the next page has to take.
            while nibble < u {
                u -= 1;
                write_entry(inventory, u, p);
                if u == old {
                    break 'pages;
                }
            }
        }
    }
    fill_entries(inventory, old, u, n);
}

// Entries from `new` up that name a later page are set to `page`, "stopping at the first that doesn't".
fn pull_entries(inventory: &mut [u8], page: usize, new: usize)
    requires { 120 ≤ length inventory.old }
    ensures { inventory.new ≡ pulled_back page new (15 - new) inventory.old }
{
    for c in new..CLASSES {
        if read_entry(inventory, c) <= page {
            return;
        }
        write_entry(inventory, c, page);
    }
}

// Page `page` of a segment of n pages has now `free_space` bytes free.
pub fn update_page_size(inventory: &mut [u8], n: usize, page: usize, free_space: usize)
    requires room { Room inventory.old n }
    requires page_lt_n { (page < n) × (free_space ≤ 16372) }
    ensures { inventory.new ≡ update inventory.old n page free_space }
{
    let new = class_of(ROOM - free_space);
    let old = read_nibble(inventory, page + NIBBLES_BEFORE);
    if old != new {
        write_nibble(inventory, page + NIBBLES_BEFORE, new);
        let end = run_end(inventory, page, old, new);
        move_entries(inventory, n, page, old, end);
        pull_entries(inventory, page, new);
    }
}

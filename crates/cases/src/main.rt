// Document 01's numbers to meet that are not marked to be proved, and the examples of document 02's requests, on the calls as C has
// them. What this prints is held to what the documents say, written by hand.
#![tactic(auto)]

ghost use Rattle.std.specs.Prelude.{◌≤◌};

mod headers;
mod show;

use show::Line::{self, Erase, Insert, Page, Read, Scan, Set, Write};
use std::io;
use store::{IDS_A_PAGE, PAGE_SIZE};

const THREE_PAGES: usize = 3 * PAGE_SIZE;

// The ids (1,0), (1,1) and (2,0).
const ONE_ZERO: u64 = IDS_A_PAGE as u64;

const ONE_ONE: u64 = ONE_ZERO + 1;

const TWO_ZERO: u64 = 2 * ONE_ZERO;

// A case on so many bytes of fresh pages: its title, and its lines.
fn case<const BYTES: usize>(rt: &impl Print, title: &[u8], lines: &[Line]) -> io::Result<()>
    requires { BYTES ≤ 49152 }
{
    let mut segment = [0u8; BYTES];
    let mut inventory = [0u8; PAGE_SIZE];
    print::say(rt, title)?;
    show::play(rt, &mut segment, &mut inventory, lines)
}

// "16,364 bytes on a fresh page: free 0. 16,365: 3."
fn largest(rt: &impl Print) -> io::Result<()> {
    case::<PAGE_SIZE>(
        rt,
        b"16,365 bytes on a fresh page, then 16,364\n",
        &[Insert(16365), Insert(16364), Page(0)],
    )
}

// "Lengths 3, 4, 5, erased in order 0, 1, 2: count 1, first free 0, free 16,364, data start 16,377."
fn erased_in_order(rt: &impl Print) -> io::Result<()> {
    case::<PAGE_SIZE>(
        rt,
        b"lengths 3, 4, 5, erased in order 0, 1, 2\n",
        &[
            Insert(3),
            Insert(4),
            Insert(5),
            Erase(0),
            Erase(1),
            Erase(2),
            Page(0),
        ],
    )
}

// "Lengths 5,000, 5,000, 3,000; erase slot 1; insert 10 (slot 1)", and then one of `last` bytes.
fn gap_of_3338(rt: &impl Print, last: usize) -> io::Result<()> {
    case::<PAGE_SIZE>(
        rt,
        b"lengths 5,000, 5,000, 3,000, slot 1 erased, then 10 and one more\n",
        &[
            Insert(5000),
            Insert(5000),
            Insert(3000),
            Erase(1),
            Insert(10),
            Insert(last),
            Read(3),
            Page(0),
        ],
    )
}

// "n = 3: insert 16,000 at (0,0), 100 at (1,0), 12,000 at (1,1). Write 5,000 to (1,0)", and then `last` bytes.
fn forwarded(rt: &impl Print, last: usize) -> io::Result<()> {
    case::<THREE_PAGES>(
        rt,
        b"three pages: lengths 16,000, 100, 12,000, then two writes to (1,0)\n",
        &[
            Insert(16000),
            Insert(100),
            Insert(12000),
            Write(5000),
            Read(ONE_ZERO),
            Page(PAGE_SIZE),
            Page(2 * PAGE_SIZE),
            Write(last),
            Read(ONE_ZERO),
            Page(2 * PAGE_SIZE),
        ],
    )
}

// Ask 3: "insert 16,000, 100 and 12,000 into all-zero bytes, so page 2 is still fresh. Then byte 11 of page 2 becomes 01."
fn fresh_but_for_a_byte(rt: &impl Print) -> io::Result<()> {
    case::<THREE_PAGES>(
        rt,
        b"three pages: lengths 16,000, 100, 12,000, then a byte of the fresh page's header\n",
        &[
            Insert(16000),
            Insert(100),
            Insert(12000),
            Set {
                offset: 2 * 16384 + 11,
                byte: 1,
            },
            Write(5000),
            Write(200),
            Scan,
        ],
    )
}

// Ask 3: "The same three inserts, then write 5,000 to (1,0), so that its target is (2,0). Then byte 1 of page 2 becomes 00."
fn wiped_count(rt: &impl Print) -> io::Result<()> {
    case::<THREE_PAGES>(
        rt,
        b"three pages: the same, then a target, and the count of its page wiped\n",
        &[
            Insert(16000),
            Insert(100),
            Insert(12000),
            Write(5000),
            Set {
                offset: 2 * 16384 + 1,
                byte: 0,
            },
            Read(ONE_ZERO),
            Write(5000),
            Erase(ONE_ZERO),
            Read(TWO_ZERO),
            Read(ONE_ONE),
            Scan,
        ],
    )
}

fn main(rt: HostRuntime) -> io::Result<()> {
    largest(&rt)?;
    erased_in_order(&rt)?;
    gap_of_3338(&rt, 3338)?;
    gap_of_3338(&rt, 3330)?;
    forwarded(&rt, 16356)?;
    forwarded(&rt, 16357)?;
    headers::table(&rt)?;
    fresh_but_for_a_byte(&rt)?;
    wiped_count(&rt)
}

// The entries of a repair in words, one a line. Of output the contracts say what those of `print` do: each function is safe and ends.
#![tactic(auto)]

use print::{end_line, named, say};
use std::io;
use store::{AT_HEADER, AT_INVENTORY};

// By number: an entry is three words, as C has them.
fn done(rt: &impl Print, what: u64) -> io::Result<()> {
    match what {
        1 => say(rt, b"record freed"),
        2 => say(rt, b"redirect freed"),
        3 => say(rt, b"made ordinary"),
        4 => say(rt, b"worked out"),
        5 => say(rt, b"zeroed"),
        6 => say(rt, b"worked out"),
        _ => named(rt, b"deed ", what),
    }
}

fn place(rt: &impl Print, page: u64, place: u64) -> io::Result<()> {
    if place == AT_INVENTORY {
        return say(rt, b"inventory");
    }
    named(rt, b"page ", page)?;
    if place == AT_HEADER {
        return say(rt, b", header");
    }
    named(rt, b", slot ", place)
}

// The first `count` entries, three words each, each after `indent`.
pub fn list(rt: &impl Print, entries: &[u64], count: usize, indent: &[u8]) -> io::Result<()> {
    let n = print::least(count, entries.len() / 3);
    for k in 0..n {
        say(rt, indent)?;
        place(rt, entries[3 * k], entries[3 * k + 1])?;
        say(rt, b": ")?;
        done(rt, entries[3 * k + 2])?;
        end_line(rt)?;
    }
    Ok(())
}

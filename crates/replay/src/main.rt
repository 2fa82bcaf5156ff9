// Replays a trace (oracle/README.md) from standard input on the store: makes its calls and compares answer, numbers and digests after
// each. Prints how much was replayed, or the first line that differs and what came instead.
// Segment and inventory are lent as C lends them, and answers are C's numbers.
#![tactic(auto)]

mod calls;
mod line;
mod made;
mod report;

ghost use Rattle.std.specs.Prelude.{◌≤◌, length, IfOk};

use std::io;
use std::io::Read;

// Where the replay stands: the line, what was replayed up to it, and the bytes lent to the calls. After a difference it stands nowhere.
#[derive(Clone, Copy)]
pub struct State {
    pub line: u64,
    pub sequences: u64,
    pub calls: u64,
    pub segment: usize,
    pub inventory: usize,
}

// Whether there are as many bytes, which are now zeros.
fn zeroed(bytes: &mut [u8], n: usize) -> bool {
    if bytes.len() < n {
        return false;
    }
    bytes[..n].fill(0);
    true
}

// "begins a sequence: so many bytes of segment and inventory, all zero"
fn begin(
    rt: &impl Print,
    s: State,
    text: &[u8],
    segment: &mut [u8],
    inventory: &mut [u8],
) -> io::Result<Option<State>> {
    let next = State {
        sequences: s.sequences.wrapping_add(1),
        segment: line::number(text, 1) as usize,
        inventory: line::number(text, 2) as usize,
        ..s
    };
    if !zeroed(segment, next.segment) || !zeroed(inventory, next.inventory) {
        report::too_large(rt, s)?;
        return Ok(None);
    }
    Ok(Some(next))
}

// Bytes set between calls. A trace sets lent bytes alone; any others are passed over.
fn poke(bytes: &mut [u8], letter: u8, text: &[u8]) {
    let n = bytes.len();
    let a = n.min(line::number(text, 1) as usize);
    let e = a + (n - a).min(line::number(text, 2) as usize);
    made::set(&mut bytes[a..e], letter, line::number(text, 3));
}

// A line that is no call.
fn refuse(rt: &impl Print, s: State, text: &[u8]) -> io::Result<Option<State>> {
    report::not_understood(rt, s, text)?;
    Ok(None)
}

fn call(
    rt: &impl Print,
    s: State,
    text: &[u8],
    segment: &mut [u8],
    inventory: &mut [u8],
) -> io::Result<Option<State>> {
    let Some(at) = line::letter(text).and_then(line::arguments_of) else {
        return refuse(rt, s, text);
    };
    if line::count(text) != Some(u64::from(at) + 5) {
        return refuse(rt, s, text);
    }
    let r = calls::perform(segment, inventory, text).unwrap_or(calls::NO_CALL);
    let a = made::digest(segment);
    let b = made::digest(inventory);
    let got = [r.answer, r.first, r.second, a, b];
    if !line::has(text, at, &got) {
        report::difference(rt, s, text, &got)?;
        return Ok(None);
    }
    Ok(Some(State {
        calls: s.calls.wrapping_add(1),
        ..s
    }))
}

// A line on the lent bytes.
fn replay_lent(
    rt: &impl Print,
    s: State,
    text: &[u8],
    segment: &mut [u8],
    inventory: &mut [u8],
) -> io::Result<Option<State>> {
    if line::count(text) != Some(3) {
        return call(rt, s, text, segment, inventory);
    }
    match line::letter(text) {
        Some(b'V') => poke(inventory, b'V', text),
        Some(letter @ (b'B' | b'G')) => poke(segment, letter, text),
        _ => return refuse(rt, s, text),
    }
    Ok(Some(s))
}

fn replay_line(
    rt: &impl Print,
    before: Option<State>,
    text: &[u8],
    segment: &mut [u8],
    inventory: &mut [u8],
) -> io::Result<Option<State>> {
    let Some(before) = before else {
        return Ok(None);
    };
    let s = State {
        line: before.line.wrapping_add(1),
        ..before
    };
    if line::letter(text) == Some(b'S') && line::count(text) == Some(2) {
        return begin(rt, s, text, segment, inventory);
    }
    let a = s.segment.min(segment.len());
    let b = s.inventory.min(inventory.len());
    replay_lent(rt, s, text, &mut segment[0..a], &mut inventory[0..b])
}

fn replay_lines(
    rt: &impl Print,
    before: Option<State>,
    text: &[u8],
    segment: &mut [u8],
    inventory: &mut [u8],
) -> io::Result<Option<State>> {
    let mut s = before;
    let mut at: usize = 0;
    // By hand: the slices of Rattle's std have no split.
    while at < text.len() {
        let e = line::line_end(text, at);
        s = replay_line(rt, s, &text[at..e], segment, inventory)?;
        if e == text.len() {
            return Ok(s);
        }
        at = e + 1;
    }
    Ok(s)
}

// Reads on after what is kept; answers how many bytes of the text there are now.
fn read_on(reader: &mut impl Read, text: &mut [u8], kept: usize) -> io::Result<usize>
    requires { kept ≤ length text.old }
    ensures { IfOk result (λ n. n ≤ length text.new) }
{
    let got = print::read_full(reader, &mut text[kept..])?;
    Ok(kept + got)
}

// A buffer at a time. What stands after its last whole line is kept for the next.
fn replay(
    rt: &impl Print,
    reader: &mut impl Read,
    text: &mut [u8],
    segment: &mut [u8],
    inventory: &mut [u8],
) -> io::Result<Option<State>> {
    let mut s = Some(State {
        line: 0,
        sequences: 0,
        calls: 0,
        segment: 0,
        inventory: 0,
    });
    let mut kept: usize = 0;
    for _ in 0..u64::MAX {
        let n = read_on(reader, text, kept)?;
        let last = n == kept;
        let e = line::whole_lines(&text[0..n], last);
        s = replay_lines(rt, s, &text[0..e], segment, inventory)?;
        if last {
            return Ok(s);
        }
        kept = n - e;
        text.copy_within(e..n, 0);
    }
    Ok(s)
}

fn main(rt: HostRuntime) -> io::Result<()> {
    let mut text = [0u8; 65536];
    let mut segment = [0u8; 229376];
    let mut inventory = [0u8; 16640];
    let s = replay(
        &rt,
        &mut rt.stdin(),
        &mut text,
        &mut segment,
        &mut inventory,
    )?;
    match s {
        Some(s) => report::end(&rt, s),
        None => Ok(()),
    }
}

// What the programs print with, to standard output, and what they read standard input with. `rt` is the handle that `main` is given. Of
// output the contracts say what those of std do: each function is safe and ends, given that each system call returns. No contract can
// say what is written: that is seen by running a program, which is held to its file `stdout`. A write that fails ends in an `Err`.
#![tactic(auto)]

ghost use Rattle.std.specs.Prelude.{◌≡◌, ◌≤◌, ◌<◌, min, length, take, IfOk};
ghost use Rattle.std.specs.Io.{ReadsAtMost};
ghost use Rattle.std.specs.Io.KnownBytes.{Consumes, IsAtEnd};

use std::io;
use std::io::Read;
use store::IDS_A_PAGE;

// Any bytes, which need not be text.
pub fn say(rt: &impl Print, text: &[u8]) -> io::Result<()> {
    rt.write_all(text)
}

// In decimal.
pub fn number(rt: &impl Print, n: u64) -> io::Result<()> {
    print!(rt; "{n}")
}

// A number after its name.
pub fn named(rt: &impl Print, name: &[u8], n: u64) -> io::Result<()> {
    say(rt, name)?;
    number(rt, n)
}

// An id as its page and slot. It is a number, as it is to the calls: no type of its own that could have a Display.
pub fn id(rt: &impl Print, id: u64) -> io::Result<()> {
    let page = id / IDS_A_PAGE as u64;
    let slot = id % IDS_A_PAGE as u64;
    print!(rt; "({page},{slot})")
}

pub fn end_line(rt: &impl Print) -> io::Result<()> {
    say(rt, b"\n")
}

// Of two lengths, the one that both slices have: min, under a name that must-fail/greatest_for_least is about.
pub fn least(a: usize, b: usize) -> usize
    ensures { (result ≡ min a b) × (result ≤ a) × (result ≤ b) }
{
    a.min(b)
}

// Reads until `buf` is full or the input ends, and answers how many bytes it put at the start of `buf`: those that came next, and fewer
// than `buf` holds only at the input's end. Of std, read_exact takes an early end for an error, and read_to_end asks for a heap.
pub fn read_full<R: Read>(reader: &mut R, buf: &mut [u8]) -> io::Result<usize>
    ensures within { ReadsAtMost result buf.new }
    ensures bytes { IfOk result (λ n. Consumes (R.remaining reader.old) (R.remaining reader.new) (take n buf.new)) }
    ensures end { IfOk result (λ n. n < length buf.new → IsAtEnd (R.remaining reader.new)) }
{
    let mut done = 0;
    while done < buf.len() {
        let n = reader.read(&mut buf[done..])?;
        if n == 0 {
            break;
        }
        done += n;
    }
    Ok(done)
}

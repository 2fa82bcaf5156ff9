// What the replay prints. After a difference, or a line that it cannot replay, it stops.
use crate::State;
use print::{end_line, named, say};
use std::io;

fn position(rt: &impl Print, s: State) -> io::Result<()> {
    named(rt, b"sequence ", s.sequences)?;
    named(rt, b", line ", s.line)?;
    say(rt, b": ")
}

fn numbers(rt: &impl Print, five: &[u64; 5]) -> io::Result<()> {
    print::number(rt, five[0])?;
    for n in &five[1..] {
        named(rt, b" ", *n)?;
    }
    Ok(())
}

// What the line says was wanted; what was got is written like the line's last five numbers.
pub fn difference(rt: &impl Print, s: State, text: &[u8], got: &[u64; 5]) -> io::Result<()> {
    position(rt, s)?;
    say(rt, b"wanted\n")?;
    say(rt, text)?;
    say(rt, b"\ngot\n")?;
    numbers(rt, got)?;
    end_line(rt)
}

pub fn not_understood(rt: &impl Print, s: State, text: &[u8]) -> io::Result<()> {
    position(rt, s)?;
    say(rt, b"not understood: ")?;
    say(rt, text)?;
    end_line(rt)
}

pub fn too_large(rt: &impl Print, s: State) -> io::Result<()> {
    position(rt, s)?;
    println!(rt; "more bytes than this program can lend")
}

pub fn end(rt: &impl Print, s: State) -> io::Result<()> {
    print::number(rt, s.sequences)?;
    named(rt, b" sequences, ", s.calls)?;
    say(rt, b" calls replayed\n")
}

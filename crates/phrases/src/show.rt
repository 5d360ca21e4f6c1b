// What is written after a case's name.
use crate::answer::Refusal;
use rules::{Journey, Kind, Network, Step};
use std::fmt::Display;
use std::io;
use std::io::Write;
use text::letter;

pub fn unclear<W: Write>(out: &mut W) -> io::Result<()> {
    writeln!(
        out,
        ": not understood: an unknown word, no such file, or more room than there is"
    )
}

pub fn verdict<W: Write>(out: &mut W, read: Result<Network, Refusal>) -> io::Result<()> {
    match read {
        Ok(_) => writeln!(out, ": taken"),
        Err(refusal) => writeln!(out, ": {refusal}"),
    }
}

pub fn counts<W: Write>(out: &mut W, read: Result<Network, Refusal>) -> io::Result<()> {
    match read {
        Ok(net) => writeln!(out, ": {} {} {} {}", net.n, net.m, net.k, net.wmax),
        Err(refusal) => writeln!(out, ": {refusal}"),
    }
}

// A refusal of what was to be written, and the first byte lent, which stays.
pub fn refused<W: Write>(out: &mut W, refusal: Refusal, lent: &[u8]) -> io::Result<()> {
    writeln!(out, ": {refusal}")?;
    byte(out, "first lent byte", lent, 0)
}

// How many bytes were written.
pub fn bytes<W: Write>(out: &mut W, long: usize) -> io::Result<()> {
    writeln!(out, ": {long} bytes")
}

// The byte at this place; 0 past the end.
pub fn byte<W: Write>(out: &mut W, title: &str, lent: &[u8], at: usize) -> io::Result<()> {
    let byte = lent.get(at).copied().unwrap_or(0);
    writeln!(out, "  {title} {byte}")
}

// ---- lists

fn numbers<W: Write, T: Display>(out: &mut W, list: &[T]) -> io::Result<()> {
    for number in list {
        write!(out, " {number}")?;
    }
    writeln!(out)
}

// A list in a line of its own.
pub fn list<W: Write, T: Display>(out: &mut W, title: &str, list: &[T]) -> io::Result<()> {
    write!(out, "  {title}")?;
    numbers(out, list)
}

// ---- runs and steps

// The nodes visited are one more than the hops.
pub fn ended<W: Write>(out: &mut W, run: Result<Journey, Refusal>, trail: &[u8]) -> io::Result<()> {
    match run {
        Ok(j) => {
            let outcome = j.outcome;
            let letter = char::from(letter(j.kind));
            write!(
                out,
                " {outcome} hops {} topology {} kind {letter} trail",
                j.hops, j.topology
            )?;
            numbers(out, trail.get(..=usize::from(j.hops)).unwrap_or(trail))
        }
        Err(refusal) => writeln!(out, " refused {refusal}"),
    }
}

pub fn stepped<W: Write>(out: &mut W, step: Result<Step, Refusal>) -> io::Result<()> {
    let (way, packet, kind) = match step {
        Ok(Step::Moved(packet, kind)) => ("moved", packet, kind),
        Ok(Step::Delivered(packet)) => ("delivered", packet, Kind::Unchanged),
        Ok(Step::Dropped(packet)) => ("dropped", packet, Kind::Unchanged),
        Err(refusal) => return writeln!(out, " refused {refusal}"),
    };
    let letter = char::from(letter(kind));
    writeln!(
        out,
        " {way} at {} topology {} kind {letter}",
        packet.place, packet.topology
    )
}

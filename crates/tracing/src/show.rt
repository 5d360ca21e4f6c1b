// The lines that are written.
use rules::{Journey, Kind, Packet};
use std::io::Write;
use std::{fmt, io};
use text::letter;

// That no link has these two ends.
#[derive(Clone, Copy, Debug)]
pub struct NoLink {
    pub a: u8,
    pub b: u8,
}

impl fmt::Display for NoLink {
    fn fmt<W: fmt::Write>(&self, f: &mut fmt::Formatter<W>) -> fmt::Result {
        write!(f, "no link joins {} and {}", self.a, self.b)
    }
}

// The hop from p to q.
pub fn hop<W: Write>(out: &mut W, p: Packet, q: Packet, kind: Kind) -> io::Result<()> {
    let letter = char::from(letter(kind));
    writeln!(
        out,
        "seen from {}: kind {letter} topology {} next {}",
        p.place, q.topology, q.place
    )
}

pub fn end<W: Write>(out: &mut W, j: Journey, place: u8) -> io::Result<()> {
    let outcome = j.outcome;
    writeln!(
        out,
        "{outcome} at {place} after {} hops in topology {}",
        j.hops, j.topology
    )
}

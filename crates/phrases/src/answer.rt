// The library's answers, each in one word as C gets it (include/burnishpeg.h): a refusal's number and place below bit 63, or the values
// of an accepted call in as many bits as each asks, the first in the lowest.
use rules::{Journey, Kind, Network, Outcome, Packet, Step};
use std::fmt;

// Why a call was refused, by number and place.
#[derive(Clone, Copy)]
pub struct Refusal {
    pub number: u8,
    pub place: u32,
}

impl fmt::Display for Refusal {
    fn fmt<W: fmt::Write>(&self, f: &mut fmt::Formatter<W>) -> fmt::Result {
        write!(f, "{} at {}", self.number, self.place)
    }
}

// A word's bytes, the highest first, where its call was accepted.
fn accepted(word: u64) -> Result<[u8; 8], Refusal> {
    let bytes = word.to_be_bytes();
    let [top, _, _, number, a, b, c, d] = bytes;
    if top < 128 {
        return Ok(bytes);
    }
    Err(Refusal {
        number,
        place: u32::from_be_bytes([a, b, c, d]),
    })
}

// How many bytes were written.
pub fn length(word: u64) -> Result<usize, Refusal> {
    Ok(usize::from_be_bytes(accepted(word)?))
}

// The counts of a file that was read.
pub fn network(word: u64) -> Result<Network, Refusal> {
    let [_, _, wmax_high, wmax_low, k, m_high, m_low, n] = accepted(word)?;
    Ok(Network {
        n,
        m: u16::from_be_bytes([m_high, m_low]),
        k,
        wmax: u16::from_be_bytes([wmax_high, wmax_low]),
    })
}

// A kind of change by its letter.
fn kind_of(letter: u8) -> Kind {
    match letter {
        b'T' => Kind::T,
        b'S' => Kind::S,
        b'D' => Kind::D,
        _ => Kind::Unchanged,
    }
}

// How a run ended.
pub fn journey(word: u64) -> Result<Journey, Refusal> {
    let [_, _, _, _, letter, topology, hops, outcome] = accepted(word)?;
    Ok(Journey {
        outcome: match outcome {
            1 => Outcome::Delivered,
            2 => Outcome::Dropped,
            _ => Outcome::UnderWay,
        },
        hops,
        topology,
        kind: kind_of(letter),
    })
}

// What a step made of its packet.
pub fn step(word: u64) -> Result<Step, Refusal> {
    let [_, _, _, topology, destination, place, letter, outcome] = accepted(word)?;
    let packet = Packet {
        place,
        destination,
        topology,
    };
    Ok(match outcome {
        1 => Step::Delivered(packet),
        2 => Step::Dropped(packet),
        _ => Step::Moved(packet, kind_of(letter)),
    })
}

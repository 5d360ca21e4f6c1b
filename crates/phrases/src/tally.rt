// What a sweep counts: how each run must end, and the tally.
use crate::answer::Refusal;
use rules::{Journey, Outcome};
use std::io::Write;
use std::{fmt, io};
use wording::asked::{Down, Trip};

// ---- how a run ends

#[derive(Clone, Copy, PartialEq, Eq)]
enum Fate {
    Delivered,
    Dropped,
    Refused,
}

// The refusal of a run whose source is down.
const SOURCE_DOWN: u8 = 12;

impl Fate {
    // None where a run ended in none of the ways that one of an accepted set can.
    fn of(run: Result<Journey, Refusal>) -> Option<Fate> {
        match run {
            Ok(journey) => match journey.outcome {
                Outcome::Delivered => Some(Fate::Delivered),
                Outcome::Dropped => Some(Fate::Dropped),
                Outcome::UnderWay => None,
            },
            Err(refusal) => (refusal.number == SOURCE_DOWN).then_some(Fate::Refused),
        }
    }

    fn expected(trip: Trip) -> Fate {
        match trip.down {
            Down::Node(v) if v == u16::from(trip.from) => Fate::Refused,
            Down::Node(v) if v == u16::from(trip.to) => Fate::Dropped,
            _ => Fate::Delivered,
        }
    }
}

// The hops. Of a refusal the byte that stands in its word where the hops would: the last of its place but one.
fn hops(run: Result<Journey, Refusal>) -> u8 {
    match run {
        Ok(journey) => journey.hops,
        Err(refusal) => {
            let [_, _, hops, _] = refusal.place.to_be_bytes();
            hops
        }
    }
}

// Says so where a run did not end as it must, or made more than 2n - 3 hops.
pub fn look<W: Write>(
    out: &mut W,
    run: Result<Journey, Refusal>,
    trip: Trip,
    n: u8,
) -> io::Result<()> {
    let within = u16::from(hops(run)) + 3 <= 2 * u16::from(n);
    if Fate::of(run) == Some(Fate::expected(trip)) && within {
        return Ok(());
    }
    write!(
        out,
        "\n  WRONG from {} to {}, {}",
        trip.from, trip.to, trip.down
    )
}

// ---- the tally

// The runs delivered, dropped and refused, and the most hops.
#[derive(Clone, Copy, Default)]
pub struct Tally {
    delivered: u32,
    dropped: u32,
    refused: u32,
    longest: u8,
}

impl Tally {
    pub fn count(&mut self, run: Result<Journey, Refusal>) {
        match Fate::of(run) {
            Some(Fate::Delivered) => self.delivered = self.delivered.saturating_add(1),
            Some(Fate::Dropped) => self.dropped = self.dropped.saturating_add(1),
            Some(Fate::Refused) => self.refused = self.refused.saturating_add(1),
            None => {}
        }
        self.longest = self.longest.max(hops(run));
    }
}

impl fmt::Display for Tally {
    fn fmt<W: fmt::Write>(&self, f: &mut fmt::Formatter<W>) -> fmt::Result {
        write!(
            f,
            "{} delivered, {} dropped, {} refused, longest {} hops",
            self.delivered, self.dropped, self.refused, self.longest
        )
    }
}

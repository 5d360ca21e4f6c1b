// Every single failure of a set, with every source and every other destination. Each run must be delivered in at most 2n - 3 hops;
// dropped where its destination is the failed node; refused by 12 where its source is.
use crate::entry::ended;
use layout::header;
use phrases::tally;
use phrases::tally::Tally;
use rules::Network;
use std::io;
use std::io::Write;
use wording::asked::{Down, LIST, TABLES, Trip};

// The set, its count of nodes, and what the runs so far came to.
#[derive(Drop)]
struct Sweep<'a> {
    set: &'a [u8],
    n: u8,
    tally: Tally,
}

impl<'a> Sweep<'a> {
    // The nodes that are asked about, as many as a set can have.
    fn nodes(&self) -> u8 {
        self.n.min(Network::MAX_NODES)
    }

    fn run<W: Write>(&mut self, out: &mut W, trip: Trip) -> io::Result<()> {
        let mut tables = [0; TABLES];
        let mut trail = [0; LIST];
        let run = ended(self.set, trip, &mut tables, &mut trail);
        tally::look(out, run, trip, self.n)?;
        self.tally.count(run);
        Ok(())
    }

    fn from<W: Write>(&mut self, out: &mut W, down: Down, from: u8) -> io::Result<()> {
        for to in 0..self.nodes() {
            if to != from {
                self.run(out, Trip { from, to, down })?;
            }
        }
        Ok(())
    }

    fn with<W: Write>(&mut self, out: &mut W, down: Down) -> io::Result<()> {
        for from in 0..self.nodes() {
            self.from(out, down, from)?;
        }
        Ok(())
    }

    fn links<W: Write>(&mut self, out: &mut W, m: u16) -> io::Result<()> {
        for l in 0..m {
            self.with(out, Down::Link(l))?;
        }
        Ok(())
    }

    fn failed_nodes<W: Write>(&mut self, out: &mut W) -> io::Result<()> {
        for v in 0..self.n {
            self.with(out, Down::Node(u16::from(v)))?;
        }
        Ok(())
    }
}

pub fn all<W: Write>(out: &mut W, set: &[u8]) -> io::Result<()> {
    let net = header(set);
    let mut sweep = Sweep {
        set,
        n: net.n,
        tally: Tally::default(),
    };
    sweep.with(out, Down::Nothing)?;
    sweep.links(out, net.m)?;
    sweep.failed_nodes(out)?;
    writeln!(out, ": {}", sweep.tally)
}

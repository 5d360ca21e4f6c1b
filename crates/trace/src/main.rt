// The trace: a set from standard input, and a question as arguments: what is down, a source and a destination. One line on standard
// output for each hop of the packet, seen from the node that makes it, and a last line that says how the run ended; or the refusal.
#![tactic(auto)]

ghost use Rattle.std.specs.Prelude.{◌≡◌};
ghost use Rattle.rules.specs.Verdict.{Accepted};
ghost use Rattle.rules.specs.Judgement.{judge};

use console::read_full;
use intake::take_set;
use linkstate::NetworkFile;
use onehop::{Routed, Situation};
use rooms::{file_and_one, room};
use rules::{Failure, Journey, Network, Packet, Step};
use std::io;
use std::io::Write;
use tracing::question::{Down, Question};
use tracing::show::NoLink;
use tracing::{question, show};

// A set that was taken in.
#[derive(Clone, Copy)]
struct Set<'a> {
    file: NetworkFile<'a>,
    ghost judged: { judge file.bytes.now ≡ Accepted },
}

// ---- the hops

// One hop and its line; the packet after it.
fn hop<W: Write>(out: &mut W, situation: &Situation, p: Packet) -> io::Result<Packet> {
    match situation.take(p) {
        Step::Moved(q, kind) => {
            show::hop(out, p, q, kind)?;
            Ok(q)
        }
        Step::Delivered(q) | Step::Dropped(q) => Ok(q),
    }
}

// The journey that the run made, hop by hop by the tables that it left, and how it ended.
fn journey<W: Write>(
    out: &mut W,
    situation: &Situation,
    q: Question,
    j: Journey,
) -> io::Result<()> {
    let mut p = Packet {
        place: q.source,
        destination: q.destination,
        topology: 0,
    };
    for _ in 0..j.hops {
        p = hop(out, situation, p)?;
    }
    show::end(out, j, p.place)
}

// ---- the run

impl<'a> Set<'a> {
    fn run<W: Write>(self, out: &mut W, q: Question, failure: Failure) -> io::Result<()> {
        let mut tables = room::<{ Network::LONGEST_TABLES }>();
        let mut trail = room::<{ Network::LONGEST_TRAIL }>();
        let file = self.file;
        let ran = forwarding::run(
            file.bytes,
            q.source,
            q.destination,
            failure,
            &mut tables,
            &mut trail,
        );
        match ran {
            Ok(j) => {
                let routed = Routed {
                    file,
                    tables: &tables,
                };
                journey(out, &Situation { routed, failure }, q, j)
            }
            Err(refusal) => writeln!(out, "{refusal}"),
        }
    }

    // What is down as the set counts it: a link by its number.
    fn failure(self, down: Down) -> Result<Failure, NoLink> {
        match down {
            Down::Nothing => Ok(Failure::Nothing),
            Down::Link(a, b) => match self.file.link_between(a, b) {
                Some(l) => Ok(Failure::Link(l)),
                None => Err(NoLink { a, b }),
            },
            Down::Node(v) => Ok(Failure::Node(v)),
        }
    }

    fn answer<W: Write>(self, out: &mut W, q: Question) -> io::Result<()> {
        match self.failure(q.down) {
            Ok(failure) => self.run(out, q, failure),
            Err(no_link) => writeln!(out, "{no_link}"),
        }
    }
}

// A file that is not taken in, or that is no set's, has no links to look for.
#[tactic(auto, using(rules::proofs::File::TakenIn::set_file))]
fn taken_in<W: Write>(out: &mut W, bytes: &[u8], q: Question) -> io::Result<()> {
    match take_set(bytes) {
        Ok(()) => {
            let net = layout::header(bytes);
            let file = NetworkFile { bytes, net };
            Set { file }.answer(out, q)
        }
        Err(refusal) => writeln!(out, "{refusal}"),
    }
}

fn read_and_answer(rt: &HostRuntime, q: Question) -> io::Result<()> {
    let mut file = file_and_one();
    let long = read_full(&mut rt.stdin(), &mut file)?;
    taken_in(&mut rt.stdout(), &file[..long], q)
}

fn main(rt: HostRuntime) -> io::Result<()> {
    match question::read(&rt) {
        Ok(q) => read_and_answer(&rt, q),
        Err(unclear) => write!(rt.stderr(), "{unclear}"),
    }
}

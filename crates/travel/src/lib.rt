// A packet's run to its end by tables that are lent, as they are: step after step, each node visited written into the trail. `travel`
// promises the run that the rules make under this failure, of at most so many hops: its outcome, hops, last topology and the kind of
// its change, and every byte of the trail.
#![tactic(auto)]

ghost use Rattle.std.specs.Prelude.{◌≡◌, [], ◌∷◌, ◌<◌, length};
ghost use Rattle.rules.specs.Forwarding.{first_kind};
ghost use Rattle.slices.specs.Stores.{put};
ghost use Rattle.travel.specs.Trip.{RunsAs, Begun};

use onehop::Situation;
use rules::{Journey, Kind, Outcome, Packet, Step};
use slices::store;

// The kind of the first change: the one there was, or else this hop's.
fn first_kind(kind: Kind, next: Kind) -> Kind
    ensures { result ≡ first_kind kind next }
{
    match kind {
        Kind::Unchanged => next,
        _ => kind,
    }
}

// Node v is written into the trail, where there is room.
fn visit(trail: &mut [u8], hops: u8, v: u8)
    ensures { trail.new ≡ put trail.old hops (v ∷ []) }
{
    store::byte(trail, hops as usize, v);
}

// How a run ended, where its packet is.
fn ended(outcome: Outcome, hops: u8, p: Packet, kind: Kind) -> Journey
    ensures { result ≡ record { outcome = outcome; hops = hops; topology = p.topology; kind = kind } }
{
    Journey {
        outcome,
        hops,
        topology: p.topology,
        kind,
    }
}

// The run of a packet whose place stands first in the trail already, of at most so many hops.
fn go_on(situation: &Situation, start: Packet, most: u8, trail: &mut [u8]) -> Journey
    requires { Begun start most trail.old }
    ensures { RunsAs situation.now.routed.file.bytes.now situation.now.routed.tables.now situation.now.failure start most trail.old result trail.new }
{
    let mut p = start;
    let mut hops: u8 = 0;
    let mut kind = Kind::Unchanged;
    loop {
        match situation.take(p) {
            Step::Delivered(q) => {
                return ended(Outcome::Delivered, hops, q, kind);
            }
            Step::Dropped(q) => {
                return ended(Outcome::Dropped, hops, q, kind);
            }
            Step::Moved(q, next) => {
                if most <= hops {
                    return ended(Outcome::UnderWay, hops, p, kind);
                }
                hops += 1;
                visit(trail, hops, q.place);
                kind = first_kind(kind, next);
                p = q;
            }
        }
    }
}

// The run of a packet, of at most so many hops; each node visited is written into the trail.
// Rules out: delivered, where the hops allowed ran out before `delivery_claimed_before_arrival`; delivered, where the packet was
// dropped `delivery_claimed_for_a_drop`.
pub fn travel(situation: &Situation, start: Packet, most: u8, trail: &mut [u8]) -> Journey
    requires { most < length trail.old }
    ensures { RunsAs situation.now.routed.file.bytes.now situation.now.routed.tables.now situation.now.failure start most trail.old result trail.new }
{
    visit(trail, 0, start.place);
    go_on(situation, start, most, trail)
}

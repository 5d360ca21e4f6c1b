// One hop of a packet by value, in the order of 01's rule: `take` promises the step that the rule makes of it, `detour` where it goes
// in place of a next hop that it cannot reach, and `lookup_rule` 15 where an entry that this step looks up is no neighbour. The tables
// that are lent are read as they are, whatever they hold. Which hops are up is `linkstate`'s to say.
#![tactic(auto)]

ghost use Rattle.std.specs.Prelude.{◌≡◌, ◌<◌, get_or};
ghost use Rattle.rules.specs.Verdict.{Accepted, broken};
ghost use Rattle.rules.specs.File.{set_of};
ghost use Rattle.rules.specs.Isolation.{neighbours};
ghost use Rattle.rules.specs.Basics.{need};
ghost use Rattle.rules.specs.Forwarding.{entry_place, move_or_drop, blocked, toward, alternate_number, change_number};
ghost use Rattle.rules.specs.Judgement.{judge};
ghost use Rattle.linkstate.specs.Links.{on};
ghost use Rattle.onehop.specs.Hop.{tables_at, kind_by, detour_of, onward_number, step_at, lookup_at};

use linkstate::NetworkFile;
use rules::{Failure, Kind, Network, Packet, Rule, Step, need};

// The entry of table i for node u and node t, and 0 past the end of the tables.
// Rules out: the entry for node t and node u; the entry of the table after.
pub fn entry(tables: &[u8], net: Network, i: usize, u: u8, t: u8) -> u8
    requires { i < 65536 }
    ensures { result ≡ get_or tables.now (entry_place net i u t) 0 }
{
    slices::entry(tables, net.entry_place(i, u, t))
}

// ---- where a packet goes in place of its next hop

// The neighbour taken, the topology changed to, the kind of the change.
#[derive(Clone, Copy)]
pub struct Change {
    pub next: u8,
    pub topology: u8,
    pub kind: Kind,
}

// The kind of a change to v's home topology: S where v is the destination, else T.
fn kind_by(destination: u8, v: u8) -> Kind
    ensures { result ≡ kind_by destination v }
{
    if destination == v { Kind::S } else { Kind::T }
}

// A network with the tables that are lent for it.
#[derive(Clone, Copy)]
pub struct Routed<'a> {
    pub file: NetworkFile<'a>,
    pub tables: &'a [u8],
}

impl Routed<'_> {
    // The next hop in topology i.
    fn next(&self, i: u8, u: u8, t: u8) -> u8
        ensures { result ≡ (tables_at self.now.file.bytes.now self.now.tables.now).next i u t }
    {
        entry(self.tables, self.file.net, usize::from(i), u, t)
    }

    // The alternate for v, the table after those of the topologies.
    fn alternate(&self, u: u8, v: u8) -> u8
        ensures { result ≡ (tables_at self.now.file.bytes.now self.now.tables.now).alternate u v }
    {
        let k = self.file.net.k;
        entry(self.tables, self.file.net, usize::from(k) + 1, u, v)
    }

    // What node u does with a packet for t in topology 0 where the hop to v, its next hop, is down.
    // Rules out: in kind D, the failed neighbour's home topology `its_topology_for_every_last_hop`; in kind D, a hop to the failed
    // neighbour again `the_alternate_not_looked_up`.
    pub fn detour(&self, u: u8, t: u8, v: u8) -> Change
        ensures { result ≡ detour_of (set_of self.now.file.bytes.now) (tables_at self.now.file.bytes.now self.now.tables.now) u t v }
    {
        let there = self.file.home(v);
        let w = self.next(there, u, t);
        if w == v {
            return Change {
                next: self.alternate(u, v),
                topology: self.file.home(u),
                kind: Kind::D,
            };
        }
        Change {
            next: w,
            topology: there,
            kind: kind_by(t, v),
        }
    }

    // ---- 15: the entries that a change looks up, in its order

    // The entry that was found is a neighbour, or 15.
    fn found(&self, u: u8, w: u8) -> Result<(), Rule>
        ensures { broken result ≡ need (neighbours (set_of self.now.file.bytes.now) u w) 15 0 }
    {
        need(self.file.neighbours(u, w), Rule::Lookup)
    }

    fn alternate_rule(&self, p: Packet, v: u8, w: u8) -> Result<(), Rule>
        ensures { broken result ≡ alternate_number (set_of self.now.file.bytes.now) (tables_at self.now.file.bytes.now self.now.tables.now) p v w }
    {
        if w == v {
            return self.found(p.place, self.alternate(p.place, v));
        }
        Ok(())
    }

    #[tactic(auto, using(crate::proofs::Hops::changes))]
    fn change_rule(&self, p: Packet, v: u8, w: u8) -> Result<(), Rule>
        ensures { broken result ≡ change_number (set_of self.now.file.bytes.now) (tables_at self.now.file.bytes.now self.now.tables.now) p v w }
    {
        self.found(p.place, w)?;
        self.alternate_rule(p, v, w)
    }
}

// ---- one hop

// A network whose file is accepted, with the tables that are lent for it, and what is down in it.
#[derive(Clone, Copy)]
pub struct Situation<'a> {
    pub routed: Routed<'a>,
    pub failure: Failure,
    ghost accepted: { judge routed.file.bytes.now ≡ Accepted },
}

impl Situation<'_> {
    // The hop is up.
    fn is_up(&self, u: u8, w: u8) -> bool
        ensures { result ≡ on self.now.routed.file.bytes.now self.now.failure u w }
    {
        self.routed.file.is_up(self.failure, u, w)
    }

    // Along the change, or dropped where its neighbour or the link to it is down.
    fn move_or_drop(&self, p: Packet, change: Change) -> Step
        ensures { result ≡ move_or_drop (on self.now.routed.file.bytes.now self.now.failure) p change.next change.topology change.kind }
    {
        if self.is_up(p.place, change.next) {
            let moved = Packet {
                place: change.next,
                topology: change.topology,
                ..p
            };
            return Step::Moved(moved, change.kind);
        }
        Step::Dropped(p)
    }

    // v is the next hop, and the hop to it is down.
    #[tactic(auto, using(crate::proofs::Hops::blocks))]
    fn blocked(&self, p: Packet, v: u8) -> Step
        ensures { result ≡ blocked (set_of self.now.routed.file.bytes.now) (tables_at self.now.routed.file.bytes.now self.now.routed.tables.now) (on self.now.routed.file.bytes.now self.now.failure) p v }
    {
        if p.topology == 0 {
            let change = self.routed.detour(p.place, p.destination, v);
            return self.move_or_drop(p, change);
        }
        Step::Dropped(p)
    }

    // v is the next hop.
    fn toward(&self, p: Packet, v: u8) -> Step
        ensures { result ≡ toward (set_of self.now.routed.file.bytes.now) (tables_at self.now.routed.file.bytes.now self.now.routed.tables.now) (on self.now.routed.file.bytes.now self.now.failure) p v }
    {
        if self.is_up(p.place, v) {
            return Step::Moved(Packet { place: v, ..p }, Kind::Unchanged);
        }
        self.blocked(p, v)
    }

    // One hop of the packet, by the tables as they are.
    // Rules out: a change out of a backup topology `a_second_change_allowed`; in kind D, a hop to the failed neighbour again
    // `the_alternate_not_looked_up`.
    pub fn take(&self, p: Packet) -> Step
        ensures { result ≡ step_at self.now.routed.file.bytes.now self.now.routed.tables.now self.now.failure p }
    {
        if p.place == p.destination {
            return Step::Delivered(p);
        }
        let v = self.routed.next(p.topology, p.place, p.destination);
        self.toward(p, v)
    }

    // ---- 15: the entries that the hop looks up, in its order

    // What is looked up once v is the next hop: nothing where the hop is up or the packet is in a backup topology.
    fn onward_rule(&self, p: Packet, v: u8) -> Result<(), Rule>
        ensures { broken result ≡ onward_number self.now.routed.file.bytes.now self.now.routed.tables.now self.now.failure p v }
    {
        if self.is_up(p.place, v) {
            return Ok(());
        }
        if p.topology != 0 {
            return Ok(());
        }
        let there = self.routed.file.home(v);
        let w = self.routed.next(there, p.place, p.destination);
        self.routed.change_rule(p, v, w)
    }

    // 15 where an entry that the hop looks up is no neighbour.
    // Rules out: 15 for a neighbour, seen from the link's end b `linkstate/the_failed_link_crossed_from_its_other_end`; none where an
    // entry that is looked up is no neighbour.
    #[tactic(auto, using(crate::proofs::Hops::looking))]
    pub fn lookup_rule(&self, p: Packet) -> Result<(), Rule>
        ensures { broken result ≡ lookup_at self.now.routed.file.bytes.now self.now.routed.tables.now self.now.failure p }
    {
        if p.place == p.destination {
            return Ok(());
        }
        let v = self.routed.next(p.topology, p.place, p.destination);
        self.routed.found(p.place, v)?;
        self.onward_rule(p, v)
    }
}

// The tables of a set: (k + 1) × n × n next hops by topology, node and destination, then n × n alternates by node and neighbour.
// `fill_tables` promises that the lent bytes become exactly those of the definitions. Each topology's distances are made once: its next
// hops and the alternates of the nodes whose home it is are taken while they are at hand. All room to work in is local.
#![tactic(auto)]

ghost use Rattle.std.specs.Prelude.{◌≡◌, ◌+◌, ◌*◌, ◌≤◌, ◌<◌, length};
ghost use Rattle.rules.specs.Basics.{up_to, flat};
ghost use Rattle.rules.specs.Limits.{tables_length};
ghost use Rattle.rules.specs.Distance.{table_bytes};
ghost use Rattle.rules.specs.Sets.{AcceptedSet};
ghost use Rattle.routes.specs.Listed.{listed};
ghost use Rattle.routes.specs.Costs.{cost};
ghost use Rattle.engine.specs.Stages.{hop_table, entries_of, Ready, AlternatesBelow, Added, AllAdded};

use routes::Ends;
use rules::Network;
use std::marker::Model;

// An accepted set, held as lists.
#[derive(Drop)]
struct Held<'a> {
    net: Network,
    ends: Ends<'a>,
    weights: &'a [u16],
    homes: &'a [u8],
    rows: &'a [u16],
}

impl<'a> Model for Held<'a> {
    ghost use Rattle.rules.specs.File.{Set};
    ghost use Rattle.rules.specs.Sets.{AcceptedSet};
    ghost use Rattle.routes.specs.Listed.{listed};

    ghost Value = { Set };

    ghost view = { λ s. listed s.net s.ends.a.now s.ends.b.now s.weights.now s.homes.now s.rows.now };

    ghost invariant = { λ s. AcceptedSet (listed s.net s.ends.a.now s.ends.b.now s.weights.now s.homes.now s.rows.now) };
}

impl Held<'_> {
    // The cost of every link in topology i.
    fn costs(&self, i: u8, c: &mut [u32])
        requires { (i ≤ self.now.net.k) × (length c.old ≡ self.now.net.m) }
        ensures { c.new ≡ up_to (cost self.now i) self.now.net.m }
    {
        let m = self.net.m as usize;
        let row = routes::row_in_force(self.weights, self.rows, m, i as usize);
        let r = self.net.restricted_weight();
        routes::fill_costs(self.ends, self.homes, row, i, r, c);
    }

    // The costs c and the distances d of topology i.
    fn measure(&self, i: u8, c: &mut [u32], d: &mut [[u32; Network::LANES]])
        requires { (i ≤ self.now.net.k) × (length c.old ≡ self.now.net.m) × (length d.old ≡ self.now.net.n) }
        ensures { Ready self.now i c.new d.new }
    {
        self.costs(i, c);
        routes::distances(self.ends, c, d);
    }

    // Topology i: its next hops, and the alternates of the nodes whose home it is.
    fn topology(
        &self,
        i: u8,
        c: &mut [u32],
        d: &mut [[u32; Network::LANES]],
        w: &mut [[u32; Network::LANES]],
        alts: &mut [[u8; Network::MOST_NODES]],
        out: &mut [u8],
    )
        requires i_le_k { i ≤ self.now.net.k }
        requires room { (length c.old ≡ self.now.net.m) × (length d.old ≡ self.now.net.n) × (length w.old ≡ self.now.net.n) }
        requires alternates_below { AlternatesBelow self.now i alts.old }
        requires out_len { length out.old ≡ self.now.net.n * self.now.net.n }
        ensures { Added self.now i out.new alts.new }
    {
        self.measure(i, c, d);
        nexthops::hop_table(self.ends, c, d, w, out);
        alternates::fill(self.ends, self.homes, i, d, alts);
    }

    // Every topology: the next hops one after the other, and into alts the alternates of all nodes.
    fn topologies(&self, alts: &mut [[u8; Network::MOST_NODES]], out: &mut [u8])
        requires alts_len { length alts.old ≡ self.now.net.n }
        requires out_len { length out.old ≡ (self.now.net.k + 1) * (self.now.net.n * self.now.net.n) }
        ensures { AllAdded self.now out.new alts.new }
    {
        let m = self.net.m as usize;
        let n = self.net.n as usize;
        let mut c = [0; Network::MOST_LINKS];
        let mut d = [[0; Network::LANES]; Network::MOST_NODES];
        let mut w = [[0; Network::LANES]; Network::MOST_NODES];
        let size = n * n;
        for i in 0..=self.net.k {
            let at = i as usize * size;
            let to = at + size;
            self.topology(
                i,
                &mut c[..m],
                &mut d[..n],
                &mut w[..n],
                alts,
                &mut out[at..to],
            );
        }
    }

    // Next hops, then alternates, which are gathered in alts.
    fn all_tables(
        &self,
        alts: &mut [[u8; Network::MOST_NODES]; Network::MOST_NODES],
        out: &mut [u8],
    )
        requires { length out.old ≡ tables_length self.now.net }
        ensures { out.new ≡ table_bytes self.now }
    {
        let n = self.net.n as usize;
        let split = out.len() - n * n;
        let rows = &mut alts[..n];
        self.topologies(rows, &mut out[..split]);
        copy_rows(rows, &mut out[split..]);
    }
}

// The alternates, one row after the other.
fn copy_rows(alts: &[[u8; Network::MOST_NODES]], out: &mut [u8])
    requires { (length alts.now ≤ 32) × (length out.old ≡ length alts.now * length alts.now) }
    ensures { out.new ≡ flat (entries_of alts.now (length alts.now)) (length alts.now) }
{
    let n = alts.len();
    for (u, row) in alts.iter().enumerate() {
        let at = u * n;
        out[at..at + n].copy_from_slice(&row[..n]);
    }
}

// The tables of an accepted set that is held as lists.
// Rules out: a way over a link with both ends isolated `routes/isolated_link_usable`; v itself as the alternate for v
// `alternates/alternate_may_be_v`.
pub fn fill_tables(
    net: Network,
    a: &[u8],
    b: &[u8],
    weights: &[u16],
    homes: &[u8],
    rows: &[u16],
    out: &mut [u8],
)
    requires accepted_set { AcceptedSet (listed net a.now b.now weights.now homes.now rows.now) }
    requires out_len { length out.old ≡ tables_length net }
    ensures { out.new ≡ table_bytes (listed net a.now b.now weights.now homes.now rows.now) }
{
    let held = Held {
        net,
        ends: Ends { a, b },
        weights,
        homes,
        rows,
    };
    let mut alts = [[0; Network::MOST_NODES]; Network::MOST_NODES];
    held.all_tables(&mut alts, out);
}

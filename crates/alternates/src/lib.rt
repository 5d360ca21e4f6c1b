// The alternates of the nodes whose home is one topology, by its distances: for a neighbour that has another home, the nearest to it
// among the other neighbours that have another home, ties to the lower number. `fill` promises what specs/ says, of any links, homes
// and distances; that this is what 01 asks of an accepted set is shown in proofs/.
#![tactic(auto)]

ghost use Rattle.std.specs.Prelude.{◌≡◌, false, ◌≤◌, ◌<◌, length};
ghost use Rattle.std.specs.Option.{unwrap_or};
ghost use Rattle.alternates.specs.Alternates.{outlets_by, eligible, least_of, near_word, alternate_by, Homed, RowBy, RowOf, RowsTo};

use routes::{Ends, FAR};
use rules::Network;
use words::{either, lowest, only};

// What the tables hold where there is no alternate.
const NONE: u8 = 255;

// The neighbours of a node that have another home than it, as flags, and the distances d of its home topology.
#[derive(Clone, Copy)]
struct Outlets<'a> {
    near: &'a [bool; Network::MOST_NODES],
    d: &'a [[u32; Network::LANES]],
    ghost few: { length d.now ≤ 32 },
}

impl Outlets<'_> {
    // Whether w may stand in for v.
    fn stands_in(&self, v: usize, w: usize) -> bool
        requires { w < 32 }
        ensures { result ≡ eligible self.now.near.now v w }
    {
        if w == v {
            return false;
        }
        self.near[w]
    }

    // The least distance to v of the nodes that may stand in for it.
    fn least_distance(&self, v: usize) -> u32
        requires { v < 32 }
        ensures { result ≡ least_of self.now.near.now self.now.d.now v (length self.now.d.now) }
    {
        let mut best = FAR;
        for (w, row) in self.d.iter().enumerate() {
            if self.stands_in(v, w) {
                best = best.min(row[v]);
            }
        }
        best
    }

    // Those of them that are at the distance `best`.
    fn nearest(&self, v: usize, best: u32) -> u32
        requires { v < 32 }
        ensures { result ≡ near_word self.now.near.now self.now.d.now v best (length self.now.d.now) }
    {
        let mut word = 0;
        for (w, row) in self.d.iter().enumerate() {
            if self.stands_in(v, w) && row[v] == best {
                word = either(word, only(w as u8));
            }
        }
        word
    }

    // The alternate for v.
    fn alternate(&self, v: usize) -> Option<u8>
        requires { v < 32 }
        ensures { unwrap_or result 255 ≡ alternate_by self.now.near.now self.now.d.now (length self.now.d.now) v }
    {
        if !self.near[v] {
            return None;
        }
        let best = self.least_distance(v);
        Some(lowest(self.nearest(v, best)))
    }

    // The alternates for all nodes.
    fn row(&self) -> [u8; Network::MOST_NODES]
        ensures { RowBy self.now.near.now self.now.d.now result (length self.now.d.now) }
    {
        let mut row = [NONE; Network::MOST_NODES];
        for v in 0..self.d.len() {
            row[v] = self.alternate(v).unwrap_or(NONE);
        }
        row
    }
}

// The links of a set, and the homes of its nodes.
#[derive(Clone, Copy)]
struct Homes<'a> {
    ends: Ends<'a>,
    homes: &'a [u8],
    ghost homed: { Homed ends.a.now ends.b.now homes.now (length homes.now) },
}

impl Homes<'_> {
    // The neighbours of u that have another home than u.
    fn outlets(&self, u: usize) -> [bool; Network::MOST_NODES]
        ensures { result ≡ outlets_by self.now.ends.a.now self.now.ends.b.now self.now.homes.now u (length self.now.ends.a.now) }
    {
        let mut near = [false; Network::MOST_NODES];
        for l in 0..self.ends.a.len() {
            let x = self.ends.a[l] as usize;
            let y = self.ends.b[l] as usize;
            if self.homes[x] != self.homes[y] {
                near[y] |= x == u;
                near[x] |= y == u;
            }
        }
        near
    }

    // The alternates of node u, by the distances d of its home topology.
    fn alternates_of(&self, d: &[[u32; Network::LANES]], u: usize) -> [u8; Network::MOST_NODES]
        requires { length d.now ≤ 32 }
        ensures { RowOf self.now.ends.a.now self.now.ends.b.now self.now.homes.now d.now u result }
    {
        let near = self.outlets(u);
        Outlets { near: &near, d }.row()
    }
}

// The alternates of the nodes whose home is i, by the distances d of topology i, into their rows.
// Rules out: v itself as the alternate for v `alternate_may_be_v`; the least distance taken to another node than v
// `alternate_by_the_first_link`.
pub fn fill(
    ends: Ends<'_>,
    homes: &[u8],
    i: u8,
    d: &[[u32; Network::LANES]],
    alts: &mut [[u8; Network::MOST_NODES]],
)
    requires homed { Homed ends.a.now ends.b.now homes.now (length d.now) }
    requires alts_len { length alts.old ≡ length d.now }
    ensures { RowsTo ends.entry.a.now ends.entry.b.now homes.now i d.now (length d.now) alts.old alts.new }
{
    let set = Homes { ends, homes };
    for (u, row) in alts.iter_mut().enumerate() {
        if homes[u] == i {
            *row = set.alternates_of(d, u);
        }
    }
}

// The next hops of one topology. It promises what specs/ says, of any links and distances; that this is what 01 asks of an accepted set
// is shown in proofs/. The neighbours that tie are the bits of a word, of which the lowest is taken.
#![tactic(auto)]

ghost use Rattle.std.specs.Prelude.{◌≡◌, ◌+◌, ◌*◌, ◌≤◌, ◌<◌, length};
ghost use Rattle.rules.specs.Basics.{up_to, flat};
ghost use Rattle.rules.specs.Distance.{far};
ghost use Rattle.routes.specs.Lanes.{LowRow, LowRows};
ghost use Rattle.routes.specs.Passes.{net_of, Wired};
ghost use Rattle.nexthops.specs.Ties.{tie_of, marked, mark, marks, Marked, MarkSpot, Worded, hop_of, hop_at, hops_of, tie_table};

use routes::Ends;
use rules::Network;
use words::{either, lowest, only};

// The bit, where v is o.
fn tie(v: u32, o: u32, bit: u32) -> u32
    ensures { result ≡ tie_of v o bit }
{
    if v == o {
        return bit;
    }
    0
}

// In the words w of a node whose row is p, the bit of a neighbour whose row is q, over a link of cost c, where it ties.
fn mark_row(
    w: &mut [u32; Network::LANES],
    p: &[u32; Network::LANES],
    q: &[u32; Network::LANES],
    c: u32,
    bit: u32,
)
    requires low_row { LowRow q.now }
    requires c_le_far { c ≤ far }
    ensures { w.new ≡ marked c bit p.now q.now 32 w.old }
{
    for t in 0..Network::LANES {
        w[t] = either(w[t], tie(c + q[t], p[t], bit));
    }
}

// A topology whose links cost c, with its distances d.
#[derive(Clone, Copy)]
struct Topology<'a> {
    ends: Ends<'a>,
    c: &'a [u32],
    d: &'a [[u32; Network::LANES]],
    ghost wired: { Wired ends.a.now ends.b.now c.now (length d.now) },
    ghost low_rows: { LowRows d.now },
}

impl Topology<'_> {
    // In the words of x, the bit of y, over a link of that cost. Rows are copied out, so that the lanes are known not to overlap.
    fn mark(&self, x: u8, y: u8, cost: u32, w: &mut [[u32; Network::LANES]])
        requires { MarkSpot self.now.d.now w.old x y cost }
        ensures { Marked self.now.d.now w.old w.new (mark x y cost) }
    {
        let mut v = w[x as usize];
        let p = self.d[x as usize];
        let q = self.d[y as usize];
        mark_row(&mut v, &p, &q, cost, only(y));
        w[x as usize] = v;
    }

    // Each link, both ways.
    fn mark_links(&self, w: &mut [[u32; Network::LANES]])
        requires { length w.old ≡ length self.now.d.now }
        ensures { Marked self.now.d.now w.old w.new (marks (net_of self.now.ends.a.now self.now.ends.b.now self.now.c.now) (length self.now.ends.a.now)) }
    {
        for (l, cost) in self.c.iter().enumerate() {
            let x = self.ends.a[l];
            let y = self.ends.b[l];
            self.mark(x, y, *cost, w);
            self.mark(y, x, *cost, w);
        }
    }

    // Column t: the words of the neighbours that tie toward t.
    fn words(&self, w: &mut [[u32; Network::LANES]])
        requires { length w.old ≡ length self.now.d.now }
        ensures { Worded (net_of self.now.ends.a.now self.now.ends.b.now self.now.c.now) self.now.d.now w.new (length self.now.d.now) }
    {
        for row in w.iter_mut() {
            *row = [0; Network::LANES];
        }
        self.mark_links(w);
    }
}

fn hop(w: u32, u: u8, t: u8) -> u8
    ensures { result ≡ hop_of w u t }
{
    if u == t {
        return u;
    }
    lowest(w)
}

// The next hops of node u, by its words.
fn hop_row(w: &[u32; Network::LANES], u: u8, out: &mut [u8])
    requires { length out.old ≤ 32 }
    ensures { out.new ≡ up_to (hop_at w.now u) (length out.old) }
{
    for (t, next) in out.iter_mut().enumerate() {
        *next = hop(w[t], u, t as u8);
    }
}

fn hop_rows(w: &[[u32; Network::LANES]], out: &mut [u8])
    requires { (length w.now ≤ 32) × (length out.old ≡ length w.now * length w.now) }
    ensures { out.new ≡ flat (hops_of w.now (length w.now)) (length w.now) }
{
    let n = w.len();
    for (u, row) in w.iter().enumerate() {
        let at = u * n;
        hop_row(row, u as u8, &mut out[at..at + n]);
    }
}

// The next hops of a topology whose links cost c, by its distances d. w is room to work in.
// Rules out: a next hop that is not the lowest of the neighbours that tie `words/tie_by_leading_zeros`; another node than itself
// in a node's entry for itself.
pub fn hop_table(
    ends: Ends<'_>,
    c: &[u32],
    d: &[[u32; Network::LANES]],
    w: &mut [[u32; Network::LANES]],
    out: &mut [u8],
)
    requires wired { Wired ends.a.now ends.b.now c.now (length d.now) }
    requires low_rows { LowRows d.now }
    requires w_len { (length w.old ≡ length d.now) × (length out.old ≡ length d.now * length d.now) }
    ensures { out.new ≡ tie_table (net_of ends.entry.a.now ends.entry.b.now c.now) d.now (length d.now) }
{
    Topology { ends, c, d }.words(w);
    hop_rows(w, out);
}

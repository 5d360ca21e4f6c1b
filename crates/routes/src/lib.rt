// The weights and distances of one topology: the row in force, the cost of each link, and the distances of all nodes to all destinations.
// It promises that they are those of the definitions. Distances are a matrix with a row for each node and a lane for each destination: what
// a node gains by going through another is one step over whole rows, and once it was tried through every node, no path is left that is shorter.
#![tactic(auto)]

ghost use Rattle.std.specs.Prelude.{◌≡◌, ◌+◌, ◌*◌, ◌≤◌, ◌<◌, min, length, get_or};
ghost use Rattle.rules.specs.Basics.{up_to};
ghost use Rattle.rules.specs.Distance.{far};
ghost use Rattle.routes.specs.Lanes.{lanes, LowRow, LowRows, unit_row, entry};
ghost use Rattle.routes.specs.Passes.{net_of, Wired, direct, direct_link, direct_links, Spot, lower_row, through, pass, passes, settled};
ghost use Rattle.routes.specs.Costs.{row_of, HoldsRow, cost_of, cost_at, Links};

use rules::Network;

// What stands for "no path", and for the cost of a link that is never used.
pub const FAR: u32 = 1073741824;

// The links of a set, as the lists that are lent: link l joins a[l] and b[l].
#[derive(Clone, Copy)]
pub struct Ends<'a> {
    pub a: &'a [u8],
    pub b: &'a [u8],
}

// The row in force for topology i: a part of one of the two lists.
// Rules out: the row of the topology after; the links' own weights in a backup topology.
pub fn row_in_force<'a>(weights: &'a [u16], rows: &'a [u16], m: usize, i: usize) -> &'a [u16]
    requires { HoldsRow weights.now rows.now m i }
    ensures { result.now ≡ row_of weights.now rows.now m i }
{
    if i == 0 {
        return &weights[..m];
    }
    let from = (i - 1) * m;
    let to = from + m;
    &rows[from..to]
}

// The cost in topology i of a link whose ends have the homes p and q.
fn cost_of(p: u8, q: u8, i: u8, w: u16, r: u32) -> u32
    ensures { result ≡ cost_of p q i w r }
{
    if p == i {
        if q == i {
            return FAR;
        }
        return r;
    }
    if q == i {
        return r;
    }
    w as u32
}

// The cost of every link in topology i, with its row in force and the restricted weight r.
// Rules out: a usable cost for a link with both ends isolated `isolated_link_usable`; the row's weight for a link with one end
// isolated.
pub fn fill_costs(ends: Ends<'_>, homes: &[u8], row: &[u16], i: u8, r: u32, c: &mut [u32])
    requires { Links ends.a.now ends.b.now homes.now row.now (length c.old) }
    ensures { c.new ≡ up_to (cost_at ends.entry.a.now ends.entry.b.now homes.now row.now i r) (length c.old) }
{
    for (l, cost) in c.iter_mut().enumerate() {
        let p = homes[ends.a[l] as usize];
        let q = homes[ends.b[l] as usize];
        *cost = cost_of(p, q, i, row[l], r);
    }
}

// The lesser. Below 2^31 the order is that of i32, which takes fewer instructions over lanes.
fn lesser(p: u32, q: u32) -> u32
    requires { (p < 2147483648) × (q < 2147483648) }
    ensures { result ≡ min p q }
{
    (p as i32).min(q as i32) as u32
}

// ---- over one link

fn unit(u: usize) -> [u32; Network::LANES]
    requires { u < 32 }
    ensures { result ≡ unit_row u }
{
    let mut r = [FAR; Network::LANES];
    r[u] = 0;
    r
}

// Every node at 0 from itself, and no other reached.
fn begin(d: &mut [[u32; Network::LANES]])
    requires { length d.old ≤ 32 }
    ensures { d.new ≡ up_to unit_row (length d.old) }
{
    for (u, row) in d.iter_mut().enumerate() {
        *row = unit(u);
    }
}

fn direct(d: &mut [[u32; Network::LANES]], x: usize, y: usize, c: u32)
    requires { Spot d.old x y }
    ensures { d.new ≡ direct x y c d.old }
{
    d[x][y] = d[x][y].min(c);
}

// Each link, both ways.
fn direct_links(ends: Ends<'_>, c: &[u32], d: &mut [[u32; Network::LANES]])
    requires { Wired ends.a.now ends.b.now c.now (length d.old) }
    ensures { d.new ≡ direct_links (net_of ends.entry.a.now ends.entry.b.now c.now) (length ends.entry.a.now) d.old }
{
    for (l, cost) in c.iter().enumerate() {
        let x = ends.a[l] as usize;
        let y = ends.b[l] as usize;
        direct(d, x, y, *cost);
        direct(d, y, x, *cost);
    }
}

// ---- through the nodes

// Row p lowered to c + row q, lane by lane.
fn lower_lanes(p: &mut [u32; Network::LANES], q: &[u32; Network::LANES], c: u32)
    requires low_row { LowRow p.old }
    requires low_row_2 { LowRow q.now }
    requires c_lt_far { c < far }
    ensures { p.new ≡ lanes c q.now 32 p.old }
{
    for t in 0..Network::LANES {
        p[t] = lesser(p[t], c + q[t]);
    }
}

// Row x lowered to c + row y. Both are copied out, so that the lanes are known not to overlap.
fn lower_row(d: &mut [[u32; Network::LANES]], x: usize, y: usize, c: u32)
    requires x_in_bounds { (x < length d.old) × (y < length d.old) × (c < far) }
    requires low_rows { LowRows d.old }
    ensures { d.new ≡ lower_row x y c d.old }
{
    let mut p = d[x];
    let q = d[y];
    lower_lanes(&mut p, &q, c);
    d[x] = p;
}

// What u gains by going through v.
fn through(d: &mut [[u32; Network::LANES]], v: usize, u: usize)
    requires d_len_bound { (length d.old ≤ 32) × (v < length d.old) × (u < length d.old) }
    requires low_rows { LowRows d.old }
    ensures { d.new ≡ through v u d.old }
{
    let c = d[u][v];
    if c < FAR {
        lower_row(d, u, v, c);
    }
}

// What every node gains by going through v.
fn pass(d: &mut [[u32; Network::LANES]], v: usize)
    requires d_len_bound { (length d.old ≤ 32) × (v < length d.old) }
    requires low_rows { LowRows d.old }
    ensures { d.new ≡ pass v (length d.old) d.old }
{
    for u in 0..d.len() {
        through(d, v, u);
    }
}

// The same through each node in turn.
fn settle(d: &mut [[u32; Network::LANES]])
    requires d_len_bound { length d.old ≤ 32 }
    requires low_rows { LowRows d.old }
    ensures { d.new ≡ passes (length d.old) (length d.old) d.old }
{
    for v in 0..d.len() {
        pass(d, v);
    }
}

// Column t: the distances toward t, of a topology whose links cost c.
// Rules out: paths through node 0 overlooked `one_pass_too_few`; the passes by another node than theirs
// `through_the_wrong_node`.
pub fn distances(ends: Ends<'_>, c: &[u32], d: &mut [[u32; Network::LANES]])
    requires { Wired ends.a.now ends.b.now c.now (length d.old) }
    ensures { d.new ≡ settled (net_of ends.entry.a.now ends.entry.b.now c.now) (length d.old) }
{
    begin(d);
    direct_links(ends, c, d);
    settle(d);
}

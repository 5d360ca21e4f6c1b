// The lists of a set, laid as the bytes of its file. `set` promises the lent room with exactly the bytes of the set that the header
// and the lists are, from its first byte on. A byte past the room's end is stored nowhere, so nothing here asks for room.
#![tactic(auto, using(crate::proofs::Stores::lays))]

ghost use Rattle.std.specs.Prelude.{◌≡◌, ◌++◌, ◌<◌};
ghost use Rattle.rules.specs.Basics.{flat};
ghost use Rattle.rules.specs.Limits.{home_records, link_place, home_place, row_place};
ghost use Rattle.rules.specs.File.{header_bytes, row_start, encode};
ghost use Rattle.rules.specs.Entries.Write.{set_with};
ghost use Rattle.slices.specs.Stores.{put};
ghost use Rattle.layout.specs.Held.{held};
ghost use Rattle.layout.specs.Records.{home_of};
ghost use Rattle.laying.specs.Parts.{link_of, weight_of, row_of};

use layout::{Lists, link_place, record, row_place};
use rules::Network;
use slices::entry;
use slices::store::number;

// ---- the links

// Link l's record, at its place.
fn link(file: &mut [u8], lists: Lists, l: usize)
    requires { l < 65536 }
    ensures { file.new ≡ put file.old (link_place l) (link_of (held lists.entry) l) }
{
    let x = entry(lists.a, l);
    let y = entry(lists.b, l);
    let w = entry(lists.weights, l);
    record::link(file, link_place(l), x, y, w);
}

fn links(file: &mut [u8], lists: Lists, m: u16)
    ensures { file.new ≡ put file.old (link_place 0) (flat (link_of (held lists.entry)) m) }
{
    for l in 0..m {
        link(file, lists, l as usize);
    }
}

// A graph's file.
fn graph(file: &mut [u8], net: Network, lists: Lists)
    ensures { file.new ≡ put file.old 0 (header_bytes net ++ flat (link_of (held lists.entry)) net.m) }
{
    record::header(file, net);
    links(file, lists, net.m);
}

// ---- the homes and the rows

// Where the weights of the row of topology j + 1 stand in `rows`.
fn row_start(net: Network, j: usize) -> usize
    requires { j < 256 }
    ensures { (result ≡ row_start net j) × (result < 1073741824) }
{
    j * net.row_weights()
}

// Weights of `rows`, from its entry `first` on.
fn weights(file: &mut [u8], at: usize, rows: &[u16], first: usize, count: usize)
    requires { (at < 1073741824) × ((first < 1073741824) × (count < 65536)) }
    ensures { file.new ≡ put file.old at (flat (weight_of rows.now first) count) }
{
    for x in 0..count {
        let w = entry(rows, first + x);
        number(file, at + Network::WEIGHT * x, w);
    }
}

fn row(file: &mut [u8], net: Network, rows: &[u16], j: u8)
    requires { j < 255 }
    ensures { file.new ≡ put file.old (row_place net j) (row_of net rows.now j) }
{
    let at = row_place(net, j as usize);
    let first = row_start(net, j as usize);
    let count = net.row_weights();
    record::row_head(file, at, j + 1);
    weights(file, at + Network::ROW_HEAD, rows, first, count);
}

fn rows(file: &mut [u8], net: Network, rows: &[u16])
    ensures { file.new ≡ put file.old (row_place net 0) (flat (row_of net rows.now) net.k) }
{
    for j in 0..net.k {
        row(file, net, rows, j);
    }
}

// What follows the links.
fn backup(file: &mut [u8], net: Network, lists: Lists)
    ensures { file.new ≡ put file.old (home_place net 0) (flat (home_of lists.entry.homes.now) (home_records net) ++ flat (row_of net lists.entry.rows.now) net.k) }
{
    record::homes(file, net, lists.homes, net.home_records());
    rows(file, net, lists.rows);
}

// The whole file.
// Rules out: every row laid over the first `every_row_at_the_first_place`; the rows before the homes.
pub fn set(file: &mut [u8], net: Network, lists: Lists)
    ensures { file.new ≡ put file.old 0 (encode (set_with net (held lists.entry))) }
{
    graph(file, net, lists);
    backup(file, net, lists);
}

// The file of a set, from a graph's file and the homes of its nodes: the graph's links, the homes, and rows that repeat topology 0's
// weights on the links that the homes leave normal. `put_set` promises the lent file with exactly those bytes at its front. It asks for
// what the verdicts before it have settled: the links stand in the graph's file, their ends have homes, and the lent file has room. So
// no byte of a row is tested again.
#![tactic(auto, using(crate::proofs::Stored::fills), unfolding(rules::specs::Limits::file_length))]

ghost use Rattle.std.specs.Prelude.{◌≡◌, ◌+◌, ◌*◌, ◌≤◌, ◌<◌, length};
ghost use Rattle.rules.specs.Basics.{flat};
ghost use Rattle.rules.specs.Limits.{row_length, link_place, row_place, file_length};
ghost use Rattle.rules.specs.File.{end_a, end_b};
ghost use Rattle.slices.specs.Stores.{put};
ghost use Rattle.filling.specs.Filled.{LinksIn, link_copy, weight_in, filled_bytes, filled_row, filled_file};

use layout::{link_fields, record, row_place};
use rules::Network;
use slices::store::number_within;

// What a set is filled from: a graph's file, the homes of its nodes, and the counts of the set. Its links stand in the graph's file, and
// their ends have homes.
#[derive(Clone, Copy)]
struct Source<'a> {
    graph: &'a [u8],
    homes: &'a [u8],
    net: Network,
    ghost links_in: { LinksIn graph.now net.m (length homes.now) },
}

impl Source<'_> {
    // The links, as in the graph.
    fn put_links(&self, file: &mut [u8])
        requires { link_place self.now.net.m ≤ length file.old }
        ensures { file.new ≡ put file.old (link_place 0) (flat (link_copy self.now.graph.now) self.now.net.m) }
    {
        for l in 0..self.net.m {
            let link = link_fields(self.graph, l as usize);
            record::link_within(file, l as usize, link.a, link.b, link.weight);
        }
    }

    // Link l's weight in topology i: topology 0's where neither end is isolated.
    fn weight(&self, i: u8, l: u16) -> u16
        requires { l < self.now.net.m }
        ensures { result ≡ weight_in self.now.graph.now self.now.homes.now i l }
    {
        let link = link_fields(self.graph, l as usize);
        let home_a = self.homes[link.a as usize];
        let home_b = self.homes[link.b as usize];
        if home_a == i || home_b == i {
            0
        } else {
            link.weight
        }
    }

    // The weights of topology i's row.
    fn put_weights(&self, file: &mut [u8], at: usize, i: u8)
        requires at_bound { at < 1073741824 }
        requires room { at + 2 * self.now.net.m ≤ length file.old }
        ensures { file.new ≡ put file.old at (flat (filled_bytes self.now.graph.now self.now.homes.now i) self.now.net.m) }
    {
        for l in 0..self.net.m {
            number_within(file, at + Network::WEIGHT * (l as usize), self.weight(i, l));
        }
    }

    // The row of topology j + 1.
    fn put_row(&self, file: &mut [u8], at: usize, j: u8)
        requires at_bound { at < 536870912 }
        requires j_bound { j < 255 }
        requires room { at + row_length self.now.net ≤ length file.old }
        ensures { file.new ≡ put file.old at (filled_row self.now.graph.now self.now.homes.now self.now.net.m j) }
    {
        let i = j + 1;
        record::row_head(file, at, i);
        self.put_weights(file, at + Network::ROW_HEAD, i);
    }

    fn put_rows(&self, file: &mut [u8])
        requires { file_length self.now.net ≤ length file.old }
        ensures { file.new ≡ put file.old (row_place self.now.net 0) (flat (filled_row self.now.graph.now self.now.homes.now self.now.net.m) self.now.net.k) }
    {
        for j in 0..self.net.k {
            let at = row_place(self.net, j as usize);
            self.put_row(file, at, j);
        }
    }
}

// The whole file of the set with these counts and homes.
// Rules out: a weight in a row for a link with an isolated end `weight_on_a_restricted_link`; the graph's own header, with k =
// 0.
pub fn put_set(graph: &[u8], homes: &[u8], file: &mut [u8], net: Network)
    requires links_in { LinksIn graph.now net.m (length homes.now) }
    requires net_in_bounds { file_length net ≤ length file.old }
    ensures { file.new ≡ put file.old 0 (filled_file graph.now homes.now net) }
{
    let source = Source { graph, homes, net };
    record::header(file, net);
    source.put_links(file);
    record::homes(file, net, homes, net.home_records());
    source.put_rows(file);
}

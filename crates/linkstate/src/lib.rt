// The network that a file holds, read off its bytes: which link joins two nodes, where a node's home is, and whether a hop is up under a
// failure, each promised as the rules say it of the file's set.
#![tactic(auto)]

ghost use Rattle.std.specs.Prelude.{◌≡◌, ltb, Some, None, not, eqb, if◌then◌else◌};
ghost use Rattle.rules.specs.Verdict.{Accepted};
ghost use Rattle.rules.specs.File.{header_of, set_of};
ghost use Rattle.rules.specs.Isolation.{link_between, neighbours, home};
ghost use Rattle.rules.specs.Judgement.{judge};
ghost use Rattle.linkstate.specs.Links.{joins_at, on};

use layout::{end_a, end_b, home_topology};
use rules::{Failure, Network};

// A file and its header.
#[derive(Clone, Copy)]
pub struct NetworkFile<'a> {
    pub bytes: &'a [u8],
    pub net: Network,
    ghost header: { net ≡ header_of bytes.now },
}

impl NetworkFile<'_> {
    // ---- the graph

    // Link l joins u and w, one way round or the other.
    #[tactic(auto, unfolding(crate::specs::Links::joins_at))]
    fn joins(&self, l: u16, u: u8, w: u8) -> bool
        ensures { result ≡ joins_at self.now.bytes.now u w l }
    {
        let a = end_a(self.bytes, usize::from(l));
        let b = end_b(self.bytes, usize::from(l));
        (a == u && b == w) || (a == w && b == u)
    }

    // The number of the link between u and w.
    // Rules out: none for one that is asked for from its end b `the_failed_link_crossed_from_its_other_end`; another link of u.
    pub fn link_between(&self, u: u8, w: u8) -> Option<u16>
        ensures { let l = link_between (set_of self.now.bytes.now) u w in result ≡ (if ltb l self.now.net.m then Some l else None) }
    {
        for l in 0..self.net.m {
            if self.joins(l, u, w) {
                return Some(l);
            }
        }
        None
    }

    // Rules out: no, asked from a link's end b `the_failed_link_crossed_from_its_other_end`; yes for two nodes that no link joins.
    pub fn neighbours(&self, u: u8, w: u8) -> bool
        ensures { result ≡ neighbours (set_of self.now.bytes.now) u w }
    {
        self.link_between(u, w).is_some()
    }

    // ---- homes

    // Node v's home; 0 where it is no node, or the file is a graph alone.
    // Rules out: another node's home; anything but 0 for a number that is no node.
    pub fn home(&self, v: u8) -> u8
        ensures { result ≡ home (set_of self.now.bytes.now) v }
    {
        let at = usize::from(v);
        if at < self.net.home_records() {
            return home_topology(self.bytes, self.net, at);
        }
        0
    }

    // ---- what is down

    // The link between u and w is not l, which is down. A link's own record tells: no other joins the same two nodes, so the rest
    // are looked through only where l is no link of the file.
    fn link_up(&self, l: u16, u: u8, w: u8) -> bool
        requires { judge self.now.bytes.now ≡ Accepted }
        ensures { result ≡ not (eqb (link_between (set_of self.now.bytes.now) u w) l) }
    {
        if l < self.net.m {
            return !self.joins(l, u, w);
        }
        self.link_between(u, w).unwrap_or(self.net.m) != l
    }

    // The hop from u to w is up.
    // Rules out: yes for the hop over the failed link `the_failed_link_up_at_its_ends`; yes for a hop to the failed node.
    pub fn is_up(&self, failure: Failure, u: u8, w: u8) -> bool
        requires { judge self.now.bytes.now ≡ Accepted }
        ensures { result ≡ on self.now.bytes.now failure u w }
    {
        match failure {
            Failure::Nothing => true,
            Failure::Link(l) => self.link_up(l, u, w),
            Failure::Node(v) => v != u && v != w,
        }
    }
}

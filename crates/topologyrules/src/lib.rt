// The rules of a topology, over words. Each node's neighbours, and a topology's isolated nodes, are a word; the backbone is
// connected where a word that grows from its lowest node covers it, and an isolated node is served where its neighbour word,
// masked by the backbone word, has two ones or more. Each function promises one equation with the definition of its name in
// specs/: `topology_rule` says which rule is broken, 7 before 8, if one is. That its number is 01's number of a topology
// is shown in proofs/.
#![tactic(auto)]

ghost use Rattle.std.specs.Prelude.{◌≡◌, true, ◌<◌, ◌≤◌, eqb, leb, get_or};
ghost use Rattle.std.specs.Int.Count.{ones};
ghost use Rattle.rules.specs.Verdict.{broken};
ghost use Rattle.words.specs.Word.{has, both};
ghost use Rattle.topologyrules.specs.Entered.{entered};
ghost use Rattle.topologyrules.specs.Topology.{backbone_word, reached_word, connected_by, all_served, number_by};

use rules::{Network, Rule, need};
use slices::entry;
use words::{adding, both, either, firsts, lowest, minus, only, removing, size};

// ---- a topology, by words

// The backbone of a topology with these isolated nodes.
// Rules out: an isolated node in it; node n in it.
pub fn backbone(n: u8, iso: u32) -> u32
    requires { (1 ≤ n) × (n ≤ 32) }
    ensures { result ≡ backbone_word n iso }
{
    minus(firsts(n), iso)
}

// Normal links join all of the backbone to a node of it. The word of reached nodes, the backbone without those that are left, grows
// from that node until it is the whole backbone, or until no node waits to be looked from.
fn joined(nb: &[u32], bb: u32, root: u8) -> bool
    requires { has bb root ≡ true }
    ensures { result ≡ eqb (reached_word nb.now bb root) bb }
{
    let mut left = removing(bb, root);
    let mut waiting = only(root);
    while waiting != 0 {
        if left == 0 {
            return true;
        }
        let v = lowest(waiting);
        let found = both(entry(nb, v as usize), left);
        left = minus(left, found);
        waiting = either(removing(waiting, v), found);
    }
    false
}

// The backbone is non-empty and connected by normal links.
// Rules out: isolated nodes taken for reached `path_through_an_isolated_node`; yes while a node is left `growth_stopped_early`;
// yes for an empty backbone (the test for it left out: `backbone_allowed_empty`).
pub fn connected(nb: &[u32], bb: u32) -> bool
    ensures { result ≡ connected_by nb.now bb }
{
    if bb == 0 {
        return false;
    }
    joined(nb, bb, lowest(bb))
}

// Node v has two neighbours in the backbone.
fn served(nb: &[u32], bb: u32, v: u8) -> bool
    ensures { result ≡ leb 2 (ones (both (get_or nb.now v 0) bb)) }
{
    size(both(entry(nb, v as usize), bb)) >= 2
}

// Each isolated node has two neighbours in the backbone.
fn all_served(nb: &[u32], iso: u32, bb: u32, n: u8) -> bool
    requires { (1 ≤ n) × (n ≤ 32) }
    ensures { result ≡ all_served nb.now iso bb n }
{
    let mut left = both(iso, firsts(n));
    while left != 0 {
        let v = lowest(left);
        if !served(nb, bb, v) {
            return false;
        }
        left = removing(left, v);
    }
    true
}

// The rule that a topology of n nodes with these isolated nodes breaks, if one: 7 before 8.
// Rules out: none where an isolated node has only one restricted link `one_restricted_link_is_enough`, or the last has none
// `last_isolated_node_not_asked`; links between isolated nodes counted as restricted `isolated_neighbours_counted`.
#[tactic(auto, using(crate::proofs::Laws::rule_first, crate::proofs::Laws::rule_last))]
pub fn topology_rule(nb: &[u32], n: u8, iso: u32) -> Result<(), Rule>
    requires { (1 ≤ n) × (n ≤ 32) }
    ensures { broken result ≡ number_by nb.now n iso }
{
    let bb = backbone(n, iso);
    need(connected(nb, bb), Rule::Backbone)?;
    need(all_served(nb, iso, bb, n), Rule::TwoLinks)
}

// ---- a node in a word

// y comes into x's word.
// Rules out: x in y's word in place of y in x's; y alone in x's word, the others lost.
pub fn enter(nb: &mut [u32; Network::MOST_NODES], x: u8, y: u8)
    requires x_bound { x < 32 }
    requires y_bound { y < 32 }
    ensures { nb.new ≡ entered nb.old x y }
{
    let at = x as usize;
    let w = adding(nb[at], y);
    nb[at] = w;
}

// First fit, over words. Each node's neighbours are a word; nodes go in number order, each to the first topology from 1 that
// admits it, and a topology's isolated nodes are kept as a word. It promises what specs/ says, of any neighbour words: whether
// the graph is whole without any one of its nodes (9), the home of each node and how many have one (10), and the highest
// topology used. That this is first fit of 01 is shown in proofs/.
#![tactic(auto)]

ghost use Rattle.std.specs.Prelude.{◌≡◌, ◌-◌, ◌<◌, ◌≤◌, length, get_or, replicate};
ghost use Rattle.rules.specs.Building.{highest};
ghost use Rattle.firstfit.specs.Fit.{spared_by, all_spared, word_admits, Placed};

use rules::Network;
use topologyrules::{backbone, connected, enter, topology_rule};
use words::{adding, only};

// ---- 9

// Without node v the others are connected.
fn spared(nb: &[u32], n: u8, v: u8) -> bool
    requires le_n { (1 ≤ n) × (n ≤ 32) }
    requires v_bound { v < 32 }
    ensures { result ≡ spared_by nb.now n v }
{
    connected(nb, backbone(n, only(v)))
}

// Without any one node the others are connected.
// Rules out: yes, where a node other than the first holds the others together `only_the_first_node_removed`; no, where it takes
// two nodes to part the others.
pub fn all_spared(nb: &[u32], n: u8) -> bool
    requires { (1 ≤ n) × (n ≤ 32) }
    ensures { result ≡ all_spared nb.now n n }
{
    for v in 0..n {
        if !spared(nb, n, v) {
            return false;
        }
    }
    true
}

// ---- first fit

// With v added, topology i's backbone and two-link rules hold.
fn admits(nb: &[u32], n: u8, isos: &[u32; Network::MOST_TOPOLOGIES], i: u8, v: u8) -> bool
    requires le_n { (1 ≤ n) × (n ≤ 32) }
    requires le_i { (1 ≤ i) × (i ≤ 32) }
    requires v_bound { v < 32 }
    ensures { result ≡ word_admits nb.now n (get_or isos.now (i - 1) 0) v }
{
    let at = (i - 1) as usize;
    let before = isos[at];
    let iso = adding(before, v);
    topology_rule(nb, n, iso).is_ok()
}

// Each node goes to the first topology that admits it. The count of nodes placed: fewer than all where the cap is passed.
// Rules out: a node put into the last topology, where an earlier one admits it `search_from_the_last_topology`; a node put where
// the rules hold for it alone, but not beside the nodes already there `rules_for_the_new_node_only`.
pub fn first_fit(nb: &[u32], n: u8, cap: u8, homes: &mut [u8]) -> u8
    requires le_n { (1 ≤ n) × (n ≤ 32) }
    requires cap_bound { cap ≤ 32 }
    requires homes_value { homes.old ≡ replicate n 0 }
    ensures { Placed nb.now n cap homes.new result }
{
    let mut isos = [0u32; Network::MOST_TOPOLOGIES];
    let mut placed: u8 = 0;
    'build: for v in 0..n {
        let mut i: u8 = 1;
        let home = loop {
            if i > cap {
                break 'build;
            }
            if admits(nb, n, &isos, i, v) {
                break i;
            }
            i += 1;
        };
        homes[usize::from(v)] = home;
        enter(&mut isos, home - 1, v);
        placed += 1;
    }
    placed
}

// The highest topology used.
// Rules out: the topology of the last node, where an earlier node's is higher; the count of the nodes.
pub fn highest(homes: &[u8]) -> u8
    ensures { result ≡ highest homes.now (length homes.now) }
{
    let mut top: u8 = 0;
    for home in homes {
        top = top.max(*home);
    }
    top
}

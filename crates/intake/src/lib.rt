// Taking in a file: the one operation that takes bytes and says whether they are a set, or a graph alone, that meets the published
// rules. The records are judged (`judgement`); then each node's neighbours, and each topology's isolated nodes, are gathered from the
// bytes as words, by which each topology's rules are judged in turn (`topologyrules`). `take_in` promises refusals 1 to 6 by record,
// then 7 and 8 by topology, of any bytes; `take_set` the same and then 13, where a set is needed.
#![tactic(auto)]

ghost use Rattle.std.specs.Prelude.{◌≡◌, ◌≤◌};
ghost use Rattle.rules.specs.Verdict.{Accepted, says};
ghost use Rattle.rules.specs.Limits.{home_records};
ghost use Rattle.rules.specs.File.{header_of, set_of};
ghost use Rattle.rules.specs.Judgement.{judge, topologies, take_in, take_set};
ghost use Rattle.intake.specs.Graph.{neighbour_words, isolated_words, isolated_in, turns_by, Ends, Homes};

use judgement::judge;
use layout::{header, home_topology, link_fields};
use needs::need_set;
use rules::{Network, Verdict, at};
use slices::entry;
use topologyrules::{enter, topology_rule};

// ---- words from a file's bytes

// Every node's neighbour word: each link is entered at both its ends.
// Rules out: a link under one end only `link_under_one_end`; a link past the first m counted.
#[tactic(auto, using(crate::proofs::Files::ends_low, crate::proofs::Files::linking))]
pub fn neighbour_words(file: &[u8], m: u16) -> [u32; Network::MOST_NODES]
    requires { Ends file.now m }
    ensures { result ≡ neighbour_words file.now m }
{
    let mut nb = [0u32; Network::MOST_NODES];
    for l in 0..m {
        let link = link_fields(file, l as usize);
        enter(&mut nb, link.a, link.b);
        enter(&mut nb, link.b, link.a);
    }
    nb
}

// Every topology's isolated nodes, in one pass over the homes: each node is entered in the word of its home, topology 1's first.
// Rules out: topologies in the words of the nodes `node_and_topology_exchanged`; the last node in no word.
#[tactic(auto, using(crate::proofs::Files::homes_low, crate::proofs::Files::isolating))]
pub fn isolated_words(file: &[u8], net: Network) -> [u32; Network::MOST_TOPOLOGIES]
    requires { Homes file.now net }
    ensures { result ≡ isolated_words file.now net (home_records net) }
{
    let mut isos = [0u32; Network::MOST_TOPOLOGIES];
    let count = net.home_records();
    for v in 0..count {
        let home = home_topology(file, net, v);
        enter(&mut isos, home - 1, v as u8);
    }
    isos
}

// ---- 7 and 8

// The isolated nodes of topology i: none in topology 0.
#[tactic(auto, using(crate::proofs::Files::none_isolated, crate::proofs::Files::word_there))]
fn isolated_in(isos: &[u32], i: u8) -> u32
    ensures { result ≡ isolated_in isos.now i }
{
    if i == 0 {
        return 0;
    }
    entry(isos, (i - 1) as usize)
}

// The topologies in turn, by the neighbour words and the words of isolated nodes.
#[tactic(auto, using(crate::proofs::Files::turns))]
fn in_turn(net: Network, nb: &[u32], isos: &[u32]) -> Verdict
    requires { (1 ≤ net.n) × (net.n ≤ 32) }
    ensures { says result ≡ turns_by nb.now net.n isos.now net.k }
{
    for j in 0..net.k {
        let i = j + 1;
        at(i as usize, topology_rule(nb, net.n, isolated_in(isos, i)))?;
    }
    Ok(())
}

// The topologies of a file that the judge accepts.
#[tactic(auto, using(crate::proofs::Files::of_words))]
fn by_words(file: &[u8], net: Network) -> Verdict
    requires judged { judge file.now ≡ Accepted }
    requires its_header { net ≡ header_of file.now }
    ensures { says result ≡ topologies (set_of file.now) }
{
    let nb = neighbour_words(file, net.m);
    let isos = isolated_words(file, net);
    in_turn(net, &nb, &isos)
}

// The same; a graph alone has none, so nothing is gathered for it.
#[tactic(auto, using(crate::proofs::Files::none_to_check))]
fn topology_verdict(file: &[u8], net: Network) -> Verdict
    requires judged { judge file.now ≡ Accepted }
    requires its_header { net ≡ header_of file.now }
    ensures { says result ≡ topologies (set_of file.now) }
{
    if net.k == 0 {
        return Ok(());
    }
    by_words(file, net)
}

// ---- taking in

// The verdict on any bytes: 1 to 6 by record, then 7 and 8 by topology.
// Rules out: accepted, although an isolated node has only one restricted link `topologyrules/one_restricted_link_is_enough`; a
// refusal's place one topology early `place_one_early`; also `the_word_of_the_topology_before`.
#[tactic(auto, using(crate::proofs::Files::taking))]
pub fn take_in(file: &[u8]) -> Verdict
    ensures { says result ≡ take_in file.now }
{
    judge(file)?;
    topology_verdict(file, header(file))
}

// The same where a set is needed: then 13 for a graph alone.
// Rules out: a graph alone accepted; 13 for bytes whose header says k = 0 and which are no graph's file `thirteen_before_taking_in`.
#[tactic(auto, using(crate::proofs::Files::taking_set))]
pub fn take_set(file: &[u8]) -> Verdict
    ensures { says result ≡ take_set file.now }
{
    take_in(file)?;
    need_set(header(file))
}

// What an entry needs beyond the rules of the file, each need once: a set or a graph (13), a packet, a failure and a cap within their
// ranges (11), a source that is not the failed node (12), lists that are long enough (14, or 1 for the writer's) and room (14). Each
// function promises the published verdict; an entry says with `?` which it asks, and when. And refusals by any number, for a caller that
// has no rule of the table's.
#![tactic(auto)]

ghost use Rattle.std.specs.Prelude.{◌≡◌, leb};
ghost use Rattle.rules.specs.Basics.{need};
ghost use Rattle.rules.specs.Verdict.{says};
ghost use Rattle.rules.specs.Judgement.{refuse, need_set, need_graph, need_failure, need_packet, need_cap, need_source};
ghost use Rattle.needs.specs.Numbers.{lists_hold, asked, numbered};

use rules::{Failure, Network, Packet, Rule, Verdict, need};
use std::fmt;

// 13: a set is needed.
// Rules out: a graph alone accepted; 13 for a set with k = 1.
#[tactic(auto, using(rules::proofs::Ground::Ruling::asking), unfolding(rules::specs::Judgement::need_set))]
pub fn need_set(net: Network) -> Verdict
    ensures { says result ≡ need_set net }
{
    need(1 <= net.k, Rule::SetOrGraph)?;
    Ok(())
}

// 13: a graph alone is needed.
// Rules out: a set accepted; 13 for a graph alone.
#[tactic(auto, using(rules::proofs::Ground::Ruling::asking), unfolding(rules::specs::Judgement::need_graph))]
pub fn need_graph(net: Network) -> Verdict
    ensures { says result ≡ need_graph net }
{
    need(net.k == 0, Rule::SetOrGraph)?;
    Ok(())
}

// 11: a cap of 1 to 32 is needed.
// Rules out: 11 for a cap of 4 `a_cap_of_4_refused`; a cap of 0 accepted.
#[tactic(auto, using(rules::proofs::Ground::Ruling::asking), unfolding(rules::specs::Judgement::need_cap))]
pub fn need_cap(cap: u8) -> Verdict
    ensures { says result ≡ need_cap cap }
{
    need(1 <= cap, Rule::Range)?;
    need(cap <= Network::MAX_CAP, Rule::Range)?;
    Ok(())
}

// What is down is nothing, or a link or node of the network.
#[tactic(auto, using(crate::proofs::Laws::down))]
fn is_there(net: Network, failure: Failure) -> bool
    ensures { need result 11 0 ≡ need_failure net failure 0 }
{
    match failure {
        Failure::Nothing => true,
        Failure::Link(l) => l < net.m,
        Failure::Node(v) => v < net.n,
    }
}

// 11: a packet and what is down within their ranges are needed.
// Rules out: 11 for topology k, which there is; link m accepted as what is down, which there is not.
#[tactic(auto, using(rules::proofs::Ground::Ruling::asking), unfolding(rules::specs::Judgement::need_packet))]
pub fn need_packet(net: Network, p: Packet, failure: Failure) -> Verdict
    ensures { says result ≡ need_packet net p failure }
{
    need(p.place < net.n, Rule::Range)?;
    need(p.destination < net.n, Rule::Range)?;
    need(p.topology <= net.k, Rule::Range)?;
    need(is_there(net, failure), Rule::Range)?;
    Ok(())
}

// 12: the packet's node is the failed one.
// Rules out: 12 for a failed link at the node; accepted where the node itself is down.
#[tactic(auto, using(rules::proofs::Ground::Ruling::asking, crate::proofs::Laws::down), unfolding(rules::specs::Judgement::need_source, rules::specs::Judgement::source_number))]
pub fn need_source(u: u8, failure: Failure) -> Verdict
    ensures { says result ≡ need_source u failure }
{
    match failure {
        Failure::Node(v) if v == u => Err(Rule::Source.at(0)),
        _ => Ok(()),
    }
}

// 14: room that is under what it is to hold.
// Rules out: 14 where the room is exactly long enough `just_enough_room_refused`; accepted one byte short.
#[tactic(auto, using(rules::proofs::Ground::Ruling::asking))]
pub fn need_room(long: usize, room: usize) -> Verdict
    ensures { says result ≡ refuse (need (leb long room) 14 0) 0 }
{
    need(long <= room, Rule::Room)?;
    Ok(())
}

// How long the five lists of a set are: link ends a and b, link weights, homes, backup weights.
#[derive(Clone, Copy, PartialEq, Eq)]
pub struct Lengths {
    pub a: usize,
    pub b: usize,
    pub weights: usize,
    pub homes: usize,
    pub rows: usize,
}

// The lists hold an entry for each link in the first three, a home for each node and a weight for each link in each row.
#[tactic(auto, unfolding(crate::specs::Numbers::lists_hold))]
fn each_long(net: Network, lists: Lengths) -> bool
    ensures { result ≡ lists_hold net lists.a lists.b lists.weights lists.homes lists.rows }
{
    let m = net.m as usize;
    m <= lists.a
        && m <= lists.b
        && m <= lists.weights
        && net.home_records() <= lists.homes
        && net.row_entries() <= lists.rows
}

// Lists of these lengths hold what the counts need, or this refuses: rule 14 where they are lent, 1 where they are given; or any number.
// `lists_said` and `lists_numbered` in proofs/ say which verdict that is.
// Rules out: accepted where one list is an entry short `short_rows_taken`; a refusal, where every list is exactly long enough.
#[tactic(auto, unfolding(crate::specs::Numbers::asked))]
pub fn need_lists<R: Copy>(refusal: R, net: Network, lists: Lengths) -> Result<(), R>
    ensures { result ≡ asked (lists_hold net lists.a lists.b lists.weights lists.homes lists.rows) refusal }
{
    if each_long(net, lists) {
        Ok(())
    } else {
        Err(refusal)
    }
}

// ---- refusals by numbers alone

// A refusal by its number, which need not be one of the table's, and its place.
#[derive(Clone, Copy, PartialEq, Eq)]
pub struct Numbered {
    pub number: u8,
    pub place: usize,
}

// As it is printed: as a refusal by a rule is.
impl fmt::Display for Numbered {
    fn fmt<W: fmt::Write>(&self, f: &mut fmt::Formatter<W>) -> fmt::Result {
        write!(f, "refused {} at {}", self.number, self.place)
    }
}

// A refusal with this number and place, or acceptance where the number is 0.
// Rules out: a refusal with the number 0 `refused_by_0`; number and place exchanged.
#[tactic(auto, unfolding(crate::specs::Numbers::numbered, rules::specs::Judgement::refuse))]
pub fn refuse(number: u8, place: usize) -> Result<(), Numbered>
    ensures { numbered result ≡ refuse number place }
{
    if number == 0 {
        return Ok(());
    }
    Err(Numbered { number, place })
}

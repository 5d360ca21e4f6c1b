// The rules of each record of a file over the values of its fields. Each rule is its tests one after the other, in 01's order, and
// promises the rule of the first that fails, if one does. Here a mark, a count, an end, a weight, a home and a row's topology
// are judged, and nowhere else; which record is judged when is the judgement's.
#![tactic(auto)]

ghost use Rattle.std.specs.Prelude.{◌≡◌, ◌+◌, ◌*◌, eqb};
ghost use Rattle.rules.specs.Basics.{need};
ghost use Rattle.rules.specs.Limits.{need_counts};
ghost use Rattle.rules.specs.Verdict.{broken};
ghost use Rattle.recordrules.specs.Rules.{header_rule, link_rule, home_rule, row_rule, weight_rule};

use rules::{Network, Rule, need};

// The counts within their limits, else 3.
// Rules out: no refusal where n is under 3 and the length fits `length_before_counts`; 33 nodes taken.
#[tactic(auto, using(rules::proofs::Ground::Ruling::needing), unfolding(rules::specs::Limits::need_counts))]
pub fn counts(net: Network) -> Result<(), Rule>
    ensures { broken result ≡ need_counts net 0 }
{
    need(Network::MIN_NODES <= net.n, Rule::Counts)?;
    need(net.n <= Network::MAX_NODES, Rule::Counts)?;
    need(Network::MIN_LINKS <= net.m, Rule::Counts)?;
    need(net.m <= Network::MAX_LINKS, Rule::Counts)?;
    need(net.k <= Network::MAX_TOPOLOGIES, Rule::Counts)?;
    need(net.k <= net.n, Rule::Counts)?;
    need(Network::MIN_WMAX <= net.wmax, Rule::Counts)
}

// The length that the counts give, else 1.
// Rules out: no refusal for a file that is one byte too long; 1 for the right length.
pub fn length(long: usize, wanted: usize) -> Result<(), Rule>
    ensures { broken result ≡ need (eqb long wanted) 1 0 }
{
    need(long == wanted, Rule::Length)
}

// At least 8 bytes, else 1; the mark, else 2.
// Rules out: 2 for a file of 7 bytes, which is 1; the second byte of the mark not compared.
#[tactic(auto, using(rules::proofs::Ground::Ruling::needing), unfolding(crate::specs::Rules::header_rule))]
pub fn header(long: usize, x: u8, y: u8) -> Result<(), Rule>
    ensures { broken result ≡ header_rule long x y 0 }
{
    need(Network::HEADER <= long, Rule::Length)?;
    need(x == b'N', Rule::Mark)?;
    need(y == b'W', Rule::Mark)
}

// Links rise by a, then b, exactly where this number rises.
// Rules out: 256 × b + a; a + b.
pub fn rank(a: u8, b: u8) -> usize
    ensures { result ≡ 256 * a + b }
{
    256 * (a as usize) + (b as usize)
}

// A link: its mark; its ends; that its rank is above `last`, the rank of the link before; its weight.
// Rules out: the second byte of the mark not compared `mark_second_byte`; 5 where a is not below b too, which is 4
// `weight_before_ends`.
#[tactic(auto, using(rules::proofs::Ground::Ruling::needing), unfolding(crate::specs::Rules::link_rule))]
pub fn link(
    net: Network,
    x: u8,
    y: u8,
    last: usize,
    rank: usize,
    a: u8,
    b: u8,
    w: u16,
) -> Result<(), Rule>
    ensures { broken result ≡ link_rule net x y last rank a b w }
{
    need(x == b'L', Rule::Mark)?;
    need(y == b'K', Rule::Mark)?;
    need(b < net.n, Rule::Ends)?;
    need(a < b, Rule::Ends)?;
    need(last < rank, Rule::Ends)?;
    need(1 <= w, Rule::Weight)?;
    need(w <= net.wmax, Rule::Weight)
}

// The home of node v: its mark, its node, its topology.
// Rules out: a home of 0 taken; a home of k + 1 taken.
#[tactic(auto, using(rules::proofs::Ground::Ruling::needing), unfolding(crate::specs::Rules::home_rule))]
pub fn home(net: Network, v: usize, x: u8, y: u8, node: u8, topology: u8) -> Result<(), Rule>
    ensures { broken result ≡ home_rule net v x y node topology }
{
    need(x == b'H', Rule::Mark)?;
    need(y == b'M', Rule::Mark)?;
    need(node as usize == v, Rule::Home)?;
    need(1 <= topology, Rule::Home)?;
    need(topology <= net.k, Rule::Home)
}

// The start of topology i's row: its mark, its topology.
// Rules out: a row taken that is not the next one; 6 where the mark is wrong too, which is 2.
#[tactic(auto, using(rules::proofs::Ground::Ruling::needing), unfolding(crate::specs::Rules::row_rule))]
pub fn row(i: usize, x: u8, y: u8, topology: u8) -> Result<(), Rule>
    ensures { broken result ≡ row_rule i x y topology 0 }
{
    need(x == b'B', Rule::Mark)?;
    need(y == b'W', Rule::Mark)?;
    need(topology as usize == i, Rule::Home)
}

// A weight of topology i's row, at a link whose ends have the homes p and q: 0 where an end is isolated in i, else 1 to wmax.
// Rules out: 0 taken as the weight of a normal link `row_weight_zero`; 1 taken as the weight of a link with an isolated end.
#[tactic(auto, using(rules::proofs::Ground::Ruling::needing, crate::proofs::Weights::by_class))]
pub fn weight(wmax: u16, i: usize, p: u8, q: u8, weight: u16) -> Result<(), Rule>
    ensures { broken result ≡ weight_rule wmax i p q weight }
{
    if p as usize == i || q as usize == i {
        return need(weight == 0, Rule::Weight);
    }
    need(1 <= weight, Rule::Weight)?;
    need(weight <= wmax, Rule::Weight)
}

// The builder: a set for a graph. The graph's neighbour words are gathered from its bytes, first fit over them gives each node
// its home (`firstfit`), and the set is filled in from these. `build` promises 01's answer for any bytes, cap and lent file:
// refusals 1 to 6, 7 and 8 by topology, 13, 11, 9, 10 and 14, or the set's bytes at the front of the file and their length. Nothing is stored before
// everything is accepted. 9 comes before 10; both can arise only where first fit did not place every node, so 9 is tested there alone.
#![tactic(auto)]

ghost use Rattle.std.specs.Prelude.{◌≡◌, ◌≤◌, length, replicate};
ghost use Rattle.rules.specs.Verdict.{Accepted, number_of};
ghost use Rattle.rules.specs.Basics.{need};
ghost use Rattle.rules.specs.File.{header_of};
ghost use Rattle.rules.specs.Judgement.{judge};
ghost use Rattle.rules.specs.Entries.Entry.{Promise};
ghost use Rattle.rules.specs.Entries.Build.{build_entry};
ghost use Rattle.intake.specs.Graph.{neighbour_words};
ghost use Rattle.firstfit.specs.Fit.{all_spared};
ghost use Rattle.builder.specs.Answer.{FilledIn, BuiltIn};

use filling::put_set;
use firstfit::{all_spared, first_fit, highest};
use intake::{neighbour_words, take_in};
use layout::header;
use needs::{need_cap, need_graph, need_room};
use rules::{Network, Refusal, Rule};

// ---- the answer

// Why first fit did not place every node: 9 where some one node holds the others together, else 10.
#[tactic(auto, using(crate::proofs::Answers::no_one, crate::proofs::Answers::some_one))]
fn unplaced(nb: &[u32], n: u8) -> Rule
    requires { (1 ≤ n) × (n ≤ 32) }
    ensures { number_of result ≡ need (all_spared nb.now n n) 9 10 }
{
    if all_spared(nb, n) {
        return Rule::Cap;
    }
    Rule::CutNode
}

// What a set is built from: a graph that is accepted, its header, its neighbour words, and a cap that is.
#[derive(Drop)]
struct Plan<'a> {
    graph: &'a [u8],
    net: Network,
    nb: [u32; Network::MOST_NODES],
    cap: u8,
    ghost accepted: { judge graph.now ≡ Accepted },
    ghost header: { net ≡ header_of graph.now },
    ghost words: { nb ≡ neighbour_words graph.now net.m },
    ghost allowed: { cap ≤ 32 },
}

impl Plan<'_> {
    // The set with these homes, written where the file has room for it.
    #[tactic(auto, using(rules::proofs::Entries::Answering::promising, crate::proofs::Answers::room_is), unfolding(rules::specs::Answers::tells))]
    fn finish(&self, homes: &[u8], file: &mut [u8]) -> Result<usize, Refusal>
        requires { length homes.now ≡ self.now.net.n }
        ensures { FilledIn self.now.graph.now homes.now file.old result file.new }
    {
        let k = highest(homes);
        let set = Network::header(self.net.n, self.net.m, k, self.net.wmax);
        let long = set.file_length();
        need_room(long, file.len())?;
        put_set(self.graph, homes, file, set);
        Ok(long)
    }

    // First fit, then the file. Where every node is placed no one node holds the others together, so 9 is asked only where one is not.
    fn fit(&self, homes: &mut [u8], file: &mut [u8]) -> Result<usize, Refusal>
        requires { homes.old ≡ replicate self.now.net.n 0 }
        ensures { BuiltIn self.now.graph.now self.now.cap file.old result file.new }
    {
        let n = self.net.n;
        let placed = first_fit(&self.nb, n, self.cap, homes);
        if placed < n {
            return Err(unplaced(&self.nb, n).at(0));
        }
        self.finish(homes, file)
    }

    // First fit in room of its own, one home for each node.
    fn fit_nodes(&self, file: &mut [u8]) -> Result<usize, Refusal>
        ensures { BuiltIn self.now.graph.now self.now.cap file.old result file.new }
    {
        let mut homes = [0u8; Network::MOST_NODES];
        let n = self.net.n as usize;
        self.fit(&mut homes[..n], file)
    }
}

// The set of a graph that is accepted, with a cap that is.
fn build_graph(graph: &[u8], cap: u8, file: &mut [u8]) -> Result<usize, Refusal>
    requires accepted { judge graph.now ≡ Accepted }
    requires allowed { cap ≤ 32 }
    ensures { BuiltIn graph.now cap file.old result file.new }
{
    let net = header(graph);
    let nb = neighbour_words(graph, net.m);
    let plan = Plan {
        graph,
        net,
        nb,
        cap,
    };
    plan.fit_nodes(file)
}

// The entry: a set for a graph with at most so many topologies, into a lent file.
// Rules out: a node put into the last topology, where an earlier one admits it `firstfit/search_from_the_last_topology`; 10 where
// a node other than the first holds the others together, which is 9 `firstfit/only_the_first_node_removed`; 13 for a set that breaks
// 7, which is told first `thirteen_before_seven`; also `nine_where_ten_is_due`, `ten_where_nine_is_due`, `one_topology_tried`, `room_for_the_graph_alone`,
// `firstfit/rules_for_the_new_node_only`.
#[tactic(auto, using(rules::proofs::Entries::Answering::promising, rules::proofs::Ground::Ruling::asking, crate::proofs::Answers::building), unfolding(rules::specs::Entries::Build::build_entry, rules::specs::Answers::tells))]
pub fn build(graph: &[u8], cap: u8, file: &mut [u8]) -> Result<usize, Refusal>
    ensures { Promise build_entry (record { file = graph.now; cap = cap }) file.entry.now result file.exit.now }
{
    take_in(graph)?;
    need_graph(header(graph))?;
    need_cap(cap)?;
    build_graph(graph, cap, file)
}

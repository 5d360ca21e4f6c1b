// The planner: a graph from standard input, and the set that the builder makes of it on standard output. The cap is the first
// argument, or else the graph's own count of nodes, which always suffices. A refusal goes to standard error, and nothing to
// standard output.
#![tactic(auto)]

mod argument; // argument.rt: the cap that is asked for

use console::read_full;
use rooms::file_and_one;
use rules::Network;
use std::io;
use std::io::Write;

fn build_into<W: Write, E: Write>(
    out: &mut W,
    errors: &mut E,
    graph: &[u8],
    cap: u8,
    file: &mut [u8],
) -> io::Result<()> {
    match builder::build(graph, cap, file) {
        Ok(long) => out.write_all(file.get(..long).unwrap_or(&[])),
        Err(refusal) => writeln!(errors, "{refusal}"),
    }
}

// The graph's count of nodes, or the largest cap where it is out of range.
fn own_cap(graph: &[u8]) -> u8 {
    match layout::header(graph).n {
        n @ Network::MIN_NODES..=Network::MAX_NODES => n,
        _ => Network::MAX_CAP,
    }
}

fn plan<W: Write, E: Write>(
    out: &mut W,
    errors: &mut E,
    graph: &[u8],
    cap: Option<u8>,
) -> io::Result<()> {
    let mut file = file_and_one();
    let cap = cap.unwrap_or_else(|| own_cap(graph));
    build_into(out, errors, graph, cap, &mut file)
}

fn read_and_plan(rt: &HostRuntime, cap: Option<u8>) -> io::Result<()> {
    let mut graph = file_and_one();
    let long = read_full(&mut rt.stdin(), &mut graph)?;
    plan(&mut rt.stdout(), &mut rt.stderr(), &graph[..long], cap)
}

fn main(rt: HostRuntime) -> io::Result<()> {
    match argument::read(&rt) {
        Ok(cap) => read_and_plan(&rt, cap),
        Err(unclear) => write!(rt.stderr(), "{unclear}"),
    }
}

// The tables of an accepted set's file, by lists. `fill` promises that lent room of the tables' length becomes the published tables;
// its caller has seen to it that the file is accepted. The lists that the tables are made from are local.
#![tactic(auto)]

ghost use Rattle.std.specs.Prelude.{◌≡◌, length};
ghost use Rattle.rules.specs.Verdict.{Accepted};
ghost use Rattle.rules.specs.Limits.{tables_length};
ghost use Rattle.rules.specs.File.{header_of, set_of};
ghost use Rattle.rules.specs.Distance.{table_bytes};
ghost use Rattle.rules.specs.Judgement.{take_set};
ghost use Rattle.rules.specs.Entries.Lists.{lists};
ghost use Rattle.tablefilling.specs.Parts.{Exact};

use engine::fill_tables;
use listing::lists_into;
use rules::Network;

// Lists that are exactly as long as the counts say.
fn from_lists(
    file: &[u8],
    net: Network,
    a: &mut [u8],
    b: &mut [u8],
    weights: &mut [u16],
    homes: &mut [u8],
    rows: &mut [u16],
    out: &mut [u8],
)
    requires file_value { take_set file.now ≡ Accepted }
    requires net_value { net ≡ header_of file.now }
    requires exact { Exact net (lists a.old b.old weights.old homes.old rows.old) }
    requires out_len { length out.old ≡ tables_length net }
    ensures { out.new ≡ table_bytes (set_of file.now) }
{
    lists_into(file, net, a, b, weights, homes, rows);
    fill_tables(net, a, b, weights, homes, rows, out);
}

// Room for the longest list of each kind.
fn room<T: Copy + Default, const N: usize>() -> [T; N]
    ensures { length result ≡ N }
{
    [T::default(); N]
}

// The tables of an accepted set's file, into room of their length. Of the longest lists the parts are taken that the counts ask for.
// Rules out: paths through node 0 overlooked `routes/one_pass_too_few`; an alternate by the least distance to another node than
// v `rules/alternate_by_the_first_link`.
#[tactic(auto, using(crate::proofs::Laws::parts))]
pub fn fill(file: &[u8], net: Network, out: &mut [u8])
    requires file_value { take_set file.now ≡ Accepted }
    requires net_value { net ≡ header_of file.now }
    requires out_len { length out.old ≡ tables_length net }
    ensures { out.new ≡ table_bytes (set_of file.now) }
{
    let mut a: [u8; Network::MOST_LINKS] = room();
    let mut b: [u8; Network::MOST_LINKS] = room();
    let mut weights: [u16; Network::MOST_LINKS] = room();
    let mut homes: [u8; Network::MOST_NODES] = room();
    let mut rows: [u16; Network::MOST_ROW_WEIGHTS] = room();
    let m = net.m as usize;
    let n = net.n as usize;
    let entries = net.row_entries();
    from_lists(
        file,
        net,
        &mut a[..m],
        &mut b[..m],
        &mut weights[..m],
        &mut homes[..n],
        &mut rows[..entries],
        out,
    );
}

// Reading a house file into lent lists: a set's, or a graph's alone. `read` promises the published answer for any bytes and any lists:
// the header's counts with the file's fields at the front of each list, or the refusal by number and place with every list as it came:
// 1 to 6 by record, 7 and 8 by topology, 14. Entries past the counts stay as they came. The lists are filled (`listing`) only where the
// file is taken in (`intake`) and every list is long enough.
#![tactic(auto)]

ghost use Rattle.std.specs.Prelude.{◌≡◌};
ghost use Rattle.rules.specs.Entries.Entry.{Promise};
ghost use Rattle.rules.specs.Entries.Lists.{lists};
ghost use Rattle.rules.specs.Entries.Read.{read_entry};

use intake::take_in;
use layout::header;
use listing::lists_into;
use needs::{Lengths, need_lists};
use rules::{Network, Refusal, Rule};

// Reads a file into the lent lists: link ends a and b, link weights, homes, backup weights row by row.
// Rules out: the lists filled, and refusal 14 all the same `refused_after_writing`; 14 for a set that breaks 7, which is told first
// `fourteen_before_seven`; also `short_list_is_one`, `recordrules/end_n`, `topologyrules/one_restricted_link_is_enough`.
#[tactic(auto, using(rules::proofs::Entries::Answering::promising, rules::proofs::Ground::Ruling::asking, crate::proofs::Promised::reading), unfolding(rules::specs::Entries::Read::read_entry, rules::specs::Answers::tells))]
pub fn read(
    file: &[u8],
    a: &mut [u8],
    b: &mut [u8],
    weights: &mut [u16],
    homes: &mut [u8],
    rows: &mut [u16],
) -> Result<Network, Refusal>
    ensures { Promise read_entry file.now (lists a.old b.old weights.old homes.old rows.old) result (lists a.new b.new weights.new homes.new rows.new) }
{
    let net = header(file);
    let lent = Lengths {
        a: a.len(),
        b: b.len(),
        weights: weights.len(),
        homes: homes.len(),
        rows: rows.len(),
    };
    take_in(file)?;
    need_lists(Rule::Room, net, lent)?;
    lists_into(file, net, a, b, weights, homes, rows);
    Ok(net)
}

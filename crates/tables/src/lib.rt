// The entry: the tables of a set's file. `tables` promises, for any bytes and any room, the published tables at the front of the lent
// room and their length, or the published refusal with every lent byte as it came: 1 to 6, 7 and 8 by topology, 13, 14.
#![tactic(auto)]

ghost use Rattle.rules.specs.Entries.Entry.{Promise};
ghost use Rattle.rules.specs.Entries.Tables.{tables_entry};

use intake::take_set;
use layout::header;
use needs::need_room;
use rules::Refusal;
use tablefilling::fill;

// The tables of a set's file.
// Rules out: 14 for a set that is itself refused `room_before_taking_in`; 14 because there is more room than the tables need
// `too_much_room_refused`; also `words/tie_by_leading_zeros`, `alternates/alternate_may_be_v`, `routes/one_pass_too_few`,
// `routes/isolated_link_usable`.
#[tactic(auto, using(rules::proofs::Entries::Answering::promising, rules::proofs::Ground::Ruling::asking, crate::proofs::Laws::tabling), unfolding(rules::specs::Entries::Tables::tables_entry, rules::specs::Answers::tells))]
pub fn tables(file: &[u8], out: &mut [u8]) -> Result<usize, Refusal>
    ensures { Promise tables_entry file.now out.old result out.new }
{
    let net = header(file);
    let long = net.tables_length();
    take_set(file)?;
    need_room(long, out.len())?;
    fill(file, net, &mut out[..long]);
    Ok(long)
}

// The writer: from a header and five lists to the file of the set that they are. `write` promises, for any lists and any room, the
// refusal that the reader would give for what it would write, 1 for a list that is too short, 14 for room that is too short, or the
// file at the front of the room; a refusal leaves the room as it came. Entries past the counts are neither written nor compared.
// The lists are laid as bytes (`laying`) in room of the writer's own, those bytes are taken in as every file is (`intake`: 1 to 6 by
// record, 7 and 8 by topology), and only then are they copied into the lent file.
#![tactic(auto)]

ghost use Rattle.std.specs.Prelude.{◌≡◌, length};
ghost use Rattle.rules.specs.Verdict.{Accepted, says};
ghost use Rattle.rules.specs.Limits.{file_length};
ghost use Rattle.rules.specs.File.{encode};
ghost use Rattle.rules.specs.Entries.Entry.{Promise};
ghost use Rattle.rules.specs.Entries.Write.{set_with, write_entry};
ghost use Rattle.layout.specs.Held.{held};
ghost use Rattle.writer.specs.Parts.{given_verdict, Copied};

use intake::take_in;
use layout::Lists;
use needs::{Lengths, need_lists, need_room};
use rules::{Network, Refusal, Rule, Verdict};

// What is asked before anything is laid: counts within their limits (3), lists that are long enough (1).
#[tactic(auto, using(rules::proofs::Ground::Ruling::asking, needs::proofs::Laws::asked_lists), unfolding(crate::specs::Parts::given_verdict))]
fn given(net: Network, lists: Lengths) -> Verdict
    ensures { says result ≡ given_verdict net lists.a lists.b lists.weights lists.homes lists.rows }
{
    recordrules::counts(net)?;
    need_lists(Rule::Length, net, lists)?;
    Ok(())
}

// A file that is laid: copied where it is taken in and there is room.
#[tactic(auto, using(rules::proofs::Entries::Answering::promising, rules::proofs::Ground::Ruling::asking, crate::proofs::Verdicts::copying), unfolding(rules::specs::Answers::tells, crate::specs::Parts::laid_verdict))]
fn copied(laid: &[u8], file: &mut [u8]) -> Result<usize, Refusal>
    ensures { Copied laid.now file.old result file.new }
{
    take_in(laid)?;
    need_room(laid.len(), file.len())?;
    Ok(slices::store::copy(laid, file))
}

// The lists laid in room that is as long as their file.
fn laid(net: Network, lists: Lists, room: &mut [u8], file: &mut [u8]) -> Result<usize, Refusal>
    requires { length room.old ≡ file_length net }
    ensures { Copied (encode (set_with net (held lists.entry))) file.old result file.new }
{
    laying::set(room, net, lists);
    copied(room, file)
}

// The same in room of the writer's own: counts within their limits have no longer file.
fn in_own_room(net: Network, lists: Lists, file: &mut [u8]) -> Result<usize, Refusal>
    requires { given_verdict net (length lists.a.now) (length lists.b.now) (length lists.weights.now) (length lists.homes.now) (length lists.rows.now) ≡ Accepted }
    ensures { Copied (encode (set_with net (held lists.entry))) file.old result file.new }
{
    let mut room = rooms::room::<{ Network::LONGEST_FILE }>();
    let long = net.file_length();
    laid(net, lists, &mut room[..long], file)
}

// Writes the file of these lists into lent room.
// Rules out: 14 for a set that breaks a rule too, which is told first `room_before_records`; 14 for a list that is too short,
// which is 1 `short_list_is_fourteen`; a set stored that breaks 8 `what_breaks_a_rule_stored`; also
// `judgement/every_home_judged_by_the_first`, `judgement/place_of_an_earlier_record`, `laying/every_row_at_the_first_place`.
#[tactic(auto, using(rules::proofs::Entries::Answering::promising, rules::proofs::Ground::Ruling::asking, crate::proofs::Verdicts::giving), unfolding(rules::specs::Entries::Write::write_entry, rules::specs::Answers::tells))]
pub fn write(net: Network, lists: Lists, file: &mut [u8]) -> Result<usize, Refusal>
    ensures { Promise write_entry (record { net = net; lists = held lists.entry }) file.old result file.new }
{
    let lengths = Lengths {
        a: lists.a.len(),
        b: lists.b.len(),
        weights: lists.weights.len(),
        homes: lists.homes.len(),
        rows: lists.rows.len(),
    };
    given(net, lengths)?;
    in_own_room(net, lists, file)
}

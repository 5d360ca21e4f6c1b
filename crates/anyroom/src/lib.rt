// A text that was made in room of its own, laid into room of any length that is lent. `lay_text` promises the text at the front of the
// room and its length, or 14 and the room as it came where that is too short.
#![tactic(auto)]

ghost use Rattle.anyroom.specs.Laying.{Copied};

use needs::need_room;
use rules::Refusal;

// A text in the room that is lent; 14 where that is too short.
// Rules out: bytes told of a text that the lent room is too short for `another_room_measured`; 14 where that room is longer than the
// text `more_room_than_the_text_refused`.
#[tactic(auto, using(rules::proofs::Entries::Answering::promising, rules::proofs::Ground::Ruling::asking, crate::proofs::Texts::texts), unfolding(rules::specs::Answers::tells, rules::specs::Judgement::need_room))]
pub fn lay_text(text: &[u8], room: &mut [u8]) -> Result<usize, Refusal>
    ensures { Copied text.now room.old result room.new }
{
    need_room(text.len(), room.len())?;
    Ok(slices::store::copy(text, room))
}

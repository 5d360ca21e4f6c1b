// An entry's answer packed into one word, as include/burnishpeg.h says: a refusal's number and place under bit 63, or the values of an
// accepted call, each in as many bits as its range asks; and what is down, from the two numbers that C gives. Each function promises the
// word of its answer, and from that word every answer can be read back: bit 63 is clear exactly where the call was accepted, and number,
// place and every value are what the entry told (`EveryWord`, proved in proofs/ReadBack).
#![tactic(auto)]

ghost use Rattle.std.specs.Prelude.{◌≡◌, List, [], ◌∷◌, ℕ, ◌<◌};
ghost use Rattle.rules.specs.Forwarding.{letter};
ghost use Rattle.rules.specs.Answers.{tells, header_values, outcome_value, step_values, journey_values};
ghost use Rattle.answerwords.specs.Words.{refused_word, pack, word_of, failure_of, by_length, by_read, by_step, by_run};

use rules::{Failure, Journey, Kind, Network, Outcome, Packet, Refusal, Step};
use text::letter;

// ---- answers as words

// What an accepted call gives, as one word: its values one after the other, each in as many bits as its range asks.
pub trait Packed {
    ghost values: { Self → List ℕ };

    ghost ranges: { List ℕ };

    // Rules out: n and k exchanged `n_and_k_exchanged`; place and destination exchanged; a kind by its number, which is a letter.
    fn packed(self) -> u64
        ensures { result ≡ pack ranges (values self) };
}

// How many bytes.
impl Packed for usize {
    ghost values = { λ bytes. bytes ∷ [] };

    ghost ranges = { by_length };

    #[tactic(auto, using(crate::proofs::Laws::length_is))]
    fn packed(self) -> u64 {
        self as u64
    }
}

// The header's counts.
impl Packed for Network {
    ghost values = { header_values };

    ghost ranges = { by_read };

    #[tactic(auto, using(crate::proofs::Laws::header_is))]
    fn packed(self) -> u64 {
        (self.n as u64)
            + 256 * ((self.m as u64) + 65536 * ((self.k as u64) + 256 * (self.wmax as u64)))
    }
}

fn letter_of(kind: Kind) -> u64
    ensures { (result ≡ letter kind) × (result < 256) }
{
    letter(kind) as u64
}

#[tactic(auto, using(crate::proofs::Laws::packet_is))]
fn packet_word(p: Packet) -> u64
    ensures { (result ≡ pack (256 ∷ 256 ∷ 256 ∷ []) (p.place ∷ p.destination ∷ p.topology ∷ [])) × (result < 16777216) }
{
    (p.place as u64) + 256 * ((p.destination as u64) + 256 * (p.topology as u64))
}

// How a packet stands, the letter of its change, and the packet.
#[tactic(auto, using(crate::proofs::Laws::stands_is))]
fn stands(outcome: Outcome, letter: u64, p: Packet) -> u64
    requires { letter < 256 }
    ensures { result ≡ pack by_step (outcome_value outcome ∷ letter ∷ p.place ∷ p.destination ∷ p.topology ∷ []) }
{
    outcome_of(outcome) + 256 * (letter + 256 * packet_word(p))
}

// One step.
impl Packed for Step {
    ghost values = { step_values };

    ghost ranges = { by_step };

    #[tactic(auto, using(crate::proofs::Laws::steps))]
    fn packed(self) -> u64 {
        match self {
            Step::Delivered(p) => stands(Outcome::Delivered, letter_of(Kind::Unchanged), p),
            Step::Moved(p, kind) => stands(Outcome::UnderWay, letter_of(kind), p),
            Step::Dropped(p) => stands(Outcome::Dropped, letter_of(Kind::Unchanged), p),
        }
    }
}

// A run.
impl Packed for Journey {
    ghost values = { journey_values };

    ghost ranges = { by_run };

    #[tactic(auto, using(crate::proofs::Laws::journey_is))]
    fn packed(self) -> u64 {
        let o = self.outcome;
        let k = self.kind;
        outcome_of(o)
            + 256 * ((self.hops as u64) + 256 * ((self.topology as u64) + 256 * letter_of(k)))
    }
}

#[tactic(auto, using(crate::proofs::Laws::outcomes))]
fn outcome_of(o: Outcome) -> u64
    ensures { (result ≡ outcome_value o) × (result < 256) }
{
    match o {
        Outcome::UnderWay => 0,
        Outcome::Delivered => 1,
        Outcome::Dropped => 2,
    }
}

// The word of a refusal by its number, which need not be one of the table's, and its place.
// Rules out: a word with bit 63 clear `a_refusal_that_looks_accepted`; the number over the place's bits `the_number_over_the_place`; a
// place of 2^32 and above that changes the number.
pub fn refused_word(number: u8, place: usize) -> u64
    ensures { result ≡ refused_word number place }
{
    let low = (place % 4294967296) as u64;
    9223372036854775808 + (number as u64) * 4294967296 + low
}

// The word of an entry's answer.
// Rules out: a refusal with bit 63 clear `a_refusal_that_looks_accepted`; values of an accepted call in another order; also
// `the_number_over_the_place`.
#[tactic(auto, unfolding(crate::specs::Words::word_of, rules::specs::Answers::tells))]
pub fn word<T: Packed>(answer: Result<T, Refusal>) -> u64
    ensures { result ≡ word_of T.ranges (tells T.values answer) }
{
    match answer {
        Ok(given) => given.packed(),
        Err(refusal) => refused_word(refusal.rule.number(), refusal.place),
    }
}

// ---- what is down

// Rules out: kind 3 taken for a link `a_link_by_another_kind`; node 256 taken for node 0 `a_node_by_its_low_byte`.
#[tactic(auto, using(crate::proofs::Laws::down))]
pub fn failure_of(kind: u8, failed: u16) -> Failure
    ensures { result ≡ failure_of kind failed }
{
    if kind == 0 {
        return Failure::Nothing;
    }
    if kind == 1 {
        return Failure::Link(failed);
    }
    if kind != 2 {
        return Failure::Link(65535);
    }
    if failed < 256 {
        return Failure::Node(failed as u8);
    }
    Failure::Link(65535)
}

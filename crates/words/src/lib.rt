// A set of nodes as a 32-bit word: node v is in it where bit v is set. Each function promises one equation with the definition
// of its name; who is in the result, how many ones a word has and which is its lowest stand as laws in proofs/, in terms of
// the definitions of 01. A node is below 32 here.
#![tactic(auto, using(crate::proofs::Laws::words), unfolding(crate::specs::Word::both, crate::specs::Word::either, crate::specs::Word::minus, crate::specs::Word::lowest_in))]

ghost use Rattle.std.specs.Prelude.{◌≡◌, ◌<◌, ◌≤◌};
ghost use Rattle.std.specs.Int.Count.{ones};
ghost use Rattle.words.specs.Word.{has, both, either, minus, only, adding, removing, firsts, lowest_in, put};

// v is in it.
// Rules out: no for a node, because a higher one is in the word too `has_is_bit`; yes for a node that is not in it.
pub fn has(w: u32, v: u8) -> bool
    requires { v < 32 }
    ensures { result ≡ has w v }
{
    (w >> v) % 2 == 1
}

// Rules out: every node of either word; the nodes that are in one of them only.
pub fn both(a: u32, b: u32) -> u32
    ensures { result ≡ both a b }
{
    a & b
}

// Rules out: only the nodes that are in both; a node that is in both left out.
pub fn either(a: u32, b: u32) -> u32
    ensures { result ≡ either a b }
{
    a | b
}

// The first without the second.
// Rules out: the second without the first; the nodes that are in both.
pub fn minus(a: u32, b: u32) -> u32
    ensures { result ≡ minus a b }
{
    a & !b
}

// v alone.
// Rules out: the number v as the word; node v + 1 alone.
pub fn only(v: u8) -> u32
    requires { v < 32 }
    ensures { result ≡ only v }
{
    1 << v
}

// Rules out: v alone, the others lost; v taken out where it was in already.
pub fn adding(w: u32, v: u8) -> u32
    requires { v < 32 }
    ensures { result ≡ adding w v }
{
    w | only(v)
}

// Rules out: v put in where it was not; a node other than v taken out.
pub fn removing(w: u32, v: u8) -> u32
    requires { v < 32 }
    ensures { result ≡ removing w v }
{
    w & !only(v)
}

// The nodes below n.
// Rules out: node n - 1 not among them `first_n_by_one`; node 0 left out.
pub fn firsts(n: u8) -> u32
    requires { (1 ≤ n) × (n ≤ 32) }
    ensures { result ≡ firsts n }
{
    u32::MAX >> (32 - n)
}

// How many are in it: the count of ones.
// Rules out: the number of the highest node; 0 for the word of all 32 nodes.
pub fn size(w: u32) -> u32
    ensures { result ≡ ones w }
{
    w.count_ones()
}

// The lowest member; 32 where there is none.
// Rules out: a count of zeros at the wrong end `tie_by_leading_zeros`; 0 for the empty word, which is 32.
pub fn lowest(w: u32) -> u8
    ensures { result ≡ lowest_in w }
{
    w.trailing_zeros() as u8
}

// With v in it where the test held.
// Rules out: v in it although the test failed; v taken out because the test failed.
pub fn put(t: bool, w: u32, v: u8) -> u32
    requires { v < 32 }
    ensures { result ≡ put t w v }
{
    if t { adding(w, v) } else { w }
}

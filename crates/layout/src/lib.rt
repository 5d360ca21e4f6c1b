// The layout of the house file: where its records stand, which follows from the counts of its header; their fields, read at those
// places, one by one from any bytes, or a link's together where its record is there; the five lists of a set as one value; and the records, stored there (`record`).
// Places, fields and records are promised by the definitions of 01's 'The file'. What a field may hold is the judgement's to say.
#![tactic(auto, using(crate::proofs::Places::places, crate::proofs::Records::fields_there), unfolding(rules::specs::Limits::link_place, rules::specs::Limits::home_place, rules::specs::File::header_of, rules::specs::File::end_a, rules::specs::File::end_b, rules::specs::File::link_weight, rules::specs::File::home_topology, rules::specs::File::row_weight))]

pub mod record; // record.rt: the records as bytes

ghost use Rattle.std.specs.Prelude.{◌≡◌, ◌+◌, ◌≤◌, ◌<◌, length};
ghost use Rattle.rules.specs.Limits.{link_place, home_place, row_place};
ghost use Rattle.rules.specs.File.{header_of, end_a, end_b, link_weight, home_topology, row_weight};
ghost use Rattle.layout.specs.Fields.{LinkAt};

use rules::Network;
use slices::{entry, two, two_within};

// A link's record: the two bytes of its mark, its ends, its weight in topology 0.
#[derive(Clone, Copy)]
pub struct LinkFields {
    pub x: u8,
    pub y: u8,
    pub a: u8,
    pub b: u8,
    pub weight: u16,
}

// The lists that a file is laid from: the links' ends and weights, the nodes' homes, and the weights of the rows one after the other.
#[derive(Clone, Copy)]
pub struct Lists<'a> {
    pub a: &'a [u8],
    pub b: &'a [u8],
    pub weights: &'a [u16],
    pub homes: &'a [u8],
    pub rows: &'a [u16],
}

// ---- places

// Where link l's record starts.
// Rules out: 6 × l, without the header; the place of the link after.
pub fn link_place(l: usize) -> usize
    requires { l < 16777216 }
    ensures { (result ≡ link_place l) × (result < 134217728) }
{
    Network::HEADER + Network::LINK * l
}

// Where node v's home record starts.
// Rules out: a place among the links; the place of the next node's home.
pub fn home_place(net: Network, v: usize) -> usize
    requires { v < 16777216 }
    ensures { (result ≡ home_place net v) × (result < 268435456) }
{
    link_place(net.m as usize) + Network::HOME * v
}

// Where the row of topology j + 1 starts.
// Rules out: the place of the row after; room for homes counted in a graph alone.
pub fn row_place(net: Network, j: usize) -> usize
    requires { j < 256 }
    ensures { (result ≡ row_place net j) × (result < 536870912) }
{
    home_place(net, net.home_records()) + j * net.row_length()
}

// The counts that stand in the header.
// Rules out: m with its bytes exchanged; k in the place of n.
pub fn header(file: &[u8]) -> Network
    ensures { result ≡ header_of file.now }
{
    Network::header(entry(file, 2), two(file, 3), entry(file, 5), two(file, 6))
}

// ---- fields: after its mark's two bytes a link has a, b and a weight of two bytes, a home its node and topology

// One end of link l, and the other.
// Rules out: the other end; the second byte of the mark.
pub fn end_a(file: &[u8], l: usize) -> u8
    requires { l < 16777216 }
    ensures { result ≡ end_a file.now l }
{
    entry(file, link_place(l) + 2)
}

// Rules out: the other end; the first byte of the weight.
pub fn end_b(file: &[u8], l: usize) -> u8
    requires { l < 16777216 }
    ensures { result ≡ end_b file.now l }
{
    entry(file, link_place(l) + 3)
}

// Link l's weight in topology 0.
// Rules out: the weight with its bytes exchanged; the weight of the link after.
pub fn link_weight(file: &[u8], l: usize) -> u16
    requires { l < 16777216 }
    ensures { result ≡ link_weight file.now l }
{
    two(file, link_place(l) + 4)
}

// All of link l's record, where the file reaches that far.
// Rules out: the ends exchanged `ends_exchanged`; the weight of the link after.
pub fn link_fields(file: &[u8], l: usize) -> LinkFields
    requires l_bound { l < 16777216 }
    requires l_in_bounds { link_place (l + 1) ≤ length file.now }
    ensures { LinkAt file.now l result }
{
    let at = link_place(l);
    LinkFields {
        x: file[at],
        y: file[at + 1],
        a: file[at + 2],
        b: file[at + 3],
        weight: two_within(file, at + 4),
    }
}

// Node v's home.
// Rules out: the node's number, which stands before it; another node's home.
pub fn home_topology(file: &[u8], net: Network, v: usize) -> u8
    requires { v < 16777216 }
    ensures { result ≡ home_topology file.now net v }
{
    entry(file, home_place(net, v) + 3)
}

// Weight x of the row of topology j + 1.
// Rules out: the same link's weight in another row; another link's weight in the same row.
pub fn row_weight(file: &[u8], net: Network, j: usize, x: usize) -> u16
    requires { (j < 256) × (x < 16777216) }
    ensures { result ≡ row_weight file.now net j x }
{
    two(
        file,
        row_place(net, j) + Network::ROW_HEAD + Network::WEIGHT * x,
    )
}

// The records of a file, stored at a place of a lent file. A byte past the file's end is stored nowhere, so no store asks for room but
// `link_within`: that there is room is for a verdict to say.
#![tactic(auto, using(crate::proofs::Records::records), unfolding(rules::specs::Limits::link_place))]

ghost use Rattle.std.specs.Prelude.{◌≡◌, ◌+◌, ◌≤◌, ◌<◌, length};
ghost use Rattle.rules.specs.Basics.{flat};
ghost use Rattle.rules.specs.Limits.{link_place, home_place};
ghost use Rattle.rules.specs.File.{header_bytes};
ghost use Rattle.slices.specs.Stores.{put};
ghost use Rattle.layout.specs.Records.{link_record, home_record, home_of, row_head};

use crate::{home_place, link_place};
use rules::Network;
use slices::entry;
use slices::store::{bytes, number, number_within, within};

// The network record, at the file's front.
// Rules out: wmax with its lower byte first `slices/weight_bytes_swapped`; k before m.
pub fn header(file: &mut [u8], net: Network)
    ensures { file.new ≡ put file.old 0 (header_bytes net) }
{
    bytes(file, 0, [b'N', b'W', net.n]);
    number(file, 3, net.m);
    bytes(file, 5, [net.k]);
    number(file, 6, net.wmax);
}

// A link record.
// Rules out: the weight with its lower byte first `slices/weight_bytes_swapped`; end b before end a.
pub fn link(file: &mut [u8], at: usize, a: u8, b: u8, w: u16)
    requires { at < 134217728 }
    ensures { file.new ≡ put file.old at (link_record a b w) }
{
    bytes(file, at, [b'L', b'K', a, b]);
    number(file, at + 4, w);
}

// Link l's record at its own place, where all of it is before the end.
// Rules out: the weight with its lower byte first `slices/lower_byte_first`; end b before end a.
pub fn link_within(file: &mut [u8], l: usize, a: u8, b: u8, w: u16)
    requires l_bound { l < 16777216 }
    requires l_in_bounds { link_place (l + 1) ≤ length file.old }
    ensures { file.new ≡ put file.old (link_place l) (link_record a b w) }
{
    let at = link_place(l);
    within(file, at, [b'L', b'K', a, b]);
    number_within(file, at + 4, w);
}

// A home record.
// Rules out: the node after its topology; the byte before the record altered.
pub fn home(file: &mut [u8], at: usize, v: u8, topology: u8)
    requires { at < 268435456 }
    ensures { file.new ≡ put file.old at (home_record v topology) }
{
    bytes(file, at, [b'H', b'M', v, topology]);
}

// The start of a row: its mark and its topology. Its weights follow, two bytes each.
// Rules out: the topology before the mark; the row's first weight altered.
pub fn row_head(file: &mut [u8], at: usize, topology: u8)
    requires { at < 1073741824 }
    ensures { file.new ≡ put file.old at (row_head topology) }
{
    bytes(file, at, [b'B', b'W', topology]);
}

// The first home records, by a list of homes.
// Rules out: the nodes numbered from 1; another node's home in a record.
pub fn homes(file: &mut [u8], net: Network, homes: &[u8], count: usize)
    requires { count < 256 }
    ensures { file.new ≡ put file.old (home_place net 0) (flat (home_of homes.now) count) }
{
    for v in 0..count {
        home(file, home_place(net, v), v as u8, entry(homes, v));
    }
}

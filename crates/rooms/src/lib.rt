// Room for the longest of each thing that a caller lends: the longest file, its tables, a run's trail, a report; for a byte more than the
// longest file; and for the tables of a small set. `room` promises the room whole: as many bytes as its caller asks for, all 0. How long
// the longest are, `Network` says; how long the other two are, the functions that give them promise.
#![tactic(auto)]

ghost use Rattle.std.specs.Prelude.{◌+◌};
ghost use Rattle.rules.specs.Limits.{longest};
ghost use Rattle.rooms.specs.Rooms.{few_tables, Room};

use rules::Network;

// One byte more than the longest file.
pub const FILE_AND_ONE: usize = Network::LONGEST_FILE + 1;

// Tables that are long enough for 16 nodes with 14 backup topologies. A caller that makes its own tables takes this room where it
// will do: to clear room for the longest takes longer than to fill small ones.
pub const FEW_TABLES: usize = 4096;

// Room of N bytes.
// Rules out: a byte other than 0 `a_room_not_cleared`; one byte more.
#[tactic(auto, unfolding(crate::specs::Rooms::zeros))]
pub fn room<const N: usize>() -> [u8; N]
    ensures { Room N result }
{
    [0; N]
}

// Room for one byte more than the longest file, so that a longer one is seen.
// Rules out: 9,192 bytes, so that a file one byte too long is not seen `a_longer_file_not_seen`; a byte other than 0.
#[tactic(auto, using(crate::proofs::Longest::a_byte_more))]
pub fn file_and_one() -> [u8; FILE_AND_ONE]
    ensures { Room (longest.file + 1) result }
{
    room()
}

// Room for the tables of a small set.
// Rules out: room for the longest tables; half the room `half_the_few_tables`.
pub fn few_tables() -> [u8; FEW_TABLES]
    ensures { Room few_tables result }
{
    room()
}

// The lists that a file holds, read into lent lists. `lists_into` promises, for any bytes and any counts, the fields of the records at
// the front of each list; entries past the counts stay as they came. Each function here may be called where its lists are long
// enough. What the fields may hold is the judgement's to say.
#![tactic(auto, using(crate::proofs::Laying::rows_in_turn))]

ghost use Rattle.std.specs.Prelude.{◌≡◌, ◌++◌, ℕ, ◌*◌, ◌<◌, ◌≤◌, length, drop};
ghost use Rattle.rules.specs.Basics.{up_to, flat, laid};
ghost use Rattle.rules.specs.Limits.{row_weights};
ghost use Rattle.rules.specs.File.{end_a, end_b, link_weight, home_topology, row_weight};
ghost use Rattle.rules.specs.Entries.Lists.{lists, LongLists};
ghost use Rattle.listing.specs.Fields.{row_of, lists_of};

use layout::{end_a, end_b, home_topology, link_weight, row_weight};
use rules::Network;

// ---- one list

// What `read` gives of 0, 1 and so on, at the front of a list.
// Rules out: what it gives of 0 in every entry `first_read_in_every_entry`; an entry past the count altered.
pub fn read_into<T: Copy, F: Fn(usize) -> T>(read: F, count: usize, out: &mut [T])
    requires room { count ≤ length out.old }
    requires calls { (i : ℕ) → i < count → F.pre read i }
    ensures { (f : ℕ → T) → ((i : ℕ) (x : T) → i < count → F.post read i x → x ≡ f i) → out.new ≡ up_to f count ++ drop count out.old }
{
    for (i, x) in out[..count].iter_mut().enumerate() {
        *x = read(i);
    }
}

// The weights of the row of topology j + 1.
// Rules out: the row of the topology after; the row's topology read as part of its first weight.
pub fn row_into(file: &[u8], net: Network, j: usize, count: usize, out: &mut [u16])
    requires { (j < 256) × ((count ≤ length out.old) × (count < 1048576)) }
    ensures { out.new ≡ laid (up_to (row_weight file.now net j) count) out.old }
{
    read_into(|x| row_weight(file, net, j, x), count, out);
}

// The rows one after the other.
// Rules out: the last row first; a gap between two rows.
pub fn rows_into(file: &[u8], net: Network, out: &mut [u16])
    requires { net.k * row_weights net ≤ length out.old }
    ensures { out.new ≡ laid (flat (row_of file.now net) net.k) out.old }
{
    let long = net.row_weights();
    for j in 0..net.k as usize {
        row_into(file, net, j, long, &mut out[j * long..]);
    }
}

// ---- all lists

// Everything after the header.
// Rules out: ends a in the list of ends b; an entry past the counts altered.
pub fn lists_into(
    file: &[u8],
    net: Network,
    a: &mut [u8],
    b: &mut [u8],
    weights: &mut [u16],
    homes: &mut [u8],
    rows: &mut [u16],
)
    requires { LongLists net (lists a.old b.old weights.old homes.old rows.old) }
    ensures { lists a.new b.new weights.new homes.new rows.new ≡ lists_of file.now net (lists a.old b.old weights.old homes.old rows.old) }
{
    let m = net.m as usize;
    read_into(|l| end_a(file, l), m, a);
    read_into(|l| end_b(file, l), m, b);
    read_into(|l| link_weight(file, l), m, weights);
    read_into(|v| home_topology(file, net, v), net.home_records(), homes);
    rows_into(file, net, rows);
}

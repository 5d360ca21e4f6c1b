// Stores: each promises the slice with these bytes from `at` on, as far as it reaches; `copy` the slice with all of another at its front.
#![tactic(auto, using(crate::proofs::Stores::bytes))]

ghost use Rattle.std.specs.Prelude.{◌≡◌, [], ◌∷◌, ◌++◌, ◌+◌, ◌^◌, ◌≤◌, ◌<◌, length, drop};
ghost use Rattle.rules.specs.File.{bytes2};
ghost use Rattle.slices.specs.Stores.{put};

// One byte. A text is written byte by byte, and here a byte takes one test alone.
// Rules out: the byte after altered too; the last byte overwritten where the place is past the end.
pub fn byte(bytes: &mut [u8], at: usize, x: u8)
    ensures { bytes.new ≡ put bytes.old at (x ∷ []) }
{
    if at < bytes.len() {
        bytes[at] = x;
    }
}

// Bytes at a place where all of them are before the end.
// Rules out: the first in every place `first_byte_stored_twice`; the byte before altered.
pub fn within<const N: usize>(to: &mut [u8], at: usize, new: [u8; N])
    requires { at + N ≤ length to.old }
    ensures { to.new ≡ put to.old at new.entry }
{
    to[at..at + N].copy_from_slice(&new);
}

// Bytes at any place. One test does for all where the slice reaches that far.
// Rules out: the bytes stored at the front whatever the place `stored_at_the_front`; the last byte overwritten where the place is past the
// end.
pub fn bytes<const N: usize>(to: &mut [u8], at: usize, new: [u8; N])
    requires { at + N < 2 ^ 64 }
    ensures { to.new ≡ put to.old at new.entry }
{
    if at + N <= to.len() {
        within(to, at, new);
    } else if at < to.len() {
        let long = to.len() - at;
        to[at..].copy_from_slice(&new[..long]);
    }
}

// A number as two bytes, the higher first, at a place where both are before the end.
// Rules out: the lower byte first `lower_byte_first`; the byte before altered.
pub fn number_within(to: &mut [u8], at: usize, w: u16)
    requires { at + 1 < length to.old }
    ensures { to.new ≡ put to.old at (bytes2 w) }
{
    within(to, at, w.to_be_bytes());
}

// The same at any place.
// Rules out: the lower byte first `weight_bytes_swapped`; a third byte altered.
pub fn number(to: &mut [u8], at: usize, w: u16)
    requires { at < 4294967296 }
    ensures { to.new ≡ put to.old at (bytes2 w) }
{
    bytes(to, at, w.to_be_bytes());
}

// All of `from` at the front of `to`; its length.
// Rules out: the bytes of `to` past the front altered; the length of `to` for that of `from`.
pub fn copy(from: &[u8], to: &mut [u8]) -> usize
    requires { length from.now ≤ length to.old }
    ensures count { result ≡ length from.now }
    ensures front { to.new ≡ from.now ++ drop (length from.now) to.old }
{
    let long = from.len();
    to[..long].copy_from_slice(from);
    long
}

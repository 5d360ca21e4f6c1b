// Numbers at a place in a slice, read and stored at any place. A read past the end gives 0, and a store past the end alters nothing,
// so no caller has to check a place. Where a place is known to be before the end, `two_within` and its like read and store without a test.
// Each function promises the entry, or the whole slice after the store.
#![tactic(auto, unfolding(rules::specs::File::two))]

pub mod store; // store.rt: bytes, numbers of two bytes, and another slice at the front

ghost use Rattle.std.specs.Prelude.{◌≡◌, ◌+◌, ◌<◌, length, get_or};
ghost use Rattle.rules.specs.File.{two};

// A number of 8, 16 or 32 bits: what a list holds. Its default is 0.
pub trait Number: Copy + Default {
    ghost nought: { Self };

    ghost default_is_nought: { (x : Self) → Self.is_default x → x ≡ nought };
}

impl Number for u8 {
    ghost nought = { 0 };

    ghost default_is_nought = { λ x e. e };
}

impl Number for u16 {
    ghost nought = { 0 };

    ghost default_is_nought = { λ x e. e };
}

impl Number for u32 {
    ghost nought = { 0 };

    ghost default_is_nought = { λ x e. e };
}

// Entry i of a list of numbers, and 0 past its end.
// Rules out: the first entry whatever i is `first_entry_for_any`; anything but 0 past the end.
pub fn entry<T: Number>(list: &[T], i: usize) -> T
    ensures { result ≡ get_or list.now i T.nought }
{
    list.get(i).copied().unwrap_or_default()
}

// The two bytes at a place as one number, the first the higher, where both are before the end.
// Rules out: the lower byte first; the two bytes one place later.
pub fn two_within(bytes: &[u8], at: usize) -> u16
    requires { at + 1 < length bytes.now }
    ensures { result ≡ two bytes.now at }
{
    u16::from_be_bytes([bytes[at], bytes[at + 1]])
}

// The same at any place. One test does for both bytes where the slice reaches that far.
// Rules out: the lower byte first; anything but 0 for a byte past the end.
pub fn two(bytes: &[u8], at: usize) -> u16
    requires { at < 4294967296 }
    ensures { result ≡ two bytes.now at }
{
    if at + 1 < bytes.len() {
        two_within(bytes, at)
    } else {
        u16::from_be_bytes([entry(bytes, at), 0])
    }
}

// The changes that a case makes to its file. The file goes on with zero bytes: `byte P V` makes byte P a V, and `long N` says how many
// bytes are the file.
use crate::{Words, letters};

// No case has more changes.
const MOST: usize = 40;

// The length that the file has after the changes, of `long` bytes before; None where one is not understood, or makes a byte that is not there.
pub fn all(changes: Words<'_>, file: &mut [u8], long: usize) -> Option<usize> {
    let mut changes = changes;
    let mut long = long;
    for _ in 0..MOST {
        let Some(word) = changes.next() else {
            return Some(long);
        };
        match letters(word) {
            b"long" => long = usize::from(changes.number()?),
            b"byte" => {
                let place = file.get_mut(usize::from(changes.number()?))?;
                *place = changes.byte()?;
            }
            _ => return None,
        }
    }
    changes.next().is_none().then_some(long)
}

// What a case is written in: its words and numbers, what it asks, and the changes that it makes to its file. Nothing here knows the
// network: the program `cases` does. Every function can be asked anything: what is not understood is None. So none promises more than
// that it is safe and ends, but for the lengths of letters and of a room's part.
#![tactic(auto)]

pub mod asked; // asked.rt: what a case asks
pub mod change; // change.rt: the changes that a case makes to its file

ghost use Rattle.std.specs.Prelude.{◌<◌, ◌≤◌, length, IfSome};
ghost use Rattle.std.specs.Iterator.{at_most};

// ---- letters and numbers

// The letters that a word is told by: its last eight, and of these none of the zero bytes in front. No word that is looked for has more.
// Rules out: nine letters `nine_letters`; all of a longer word.
pub fn letters(word: &[u8]) -> &[u8]
    ensures { length result.now ≤ 8 }
{
    let last = &word[word.len().saturating_sub(8)..];
    let zeros = last.iter().take_while(|letter| **letter == 0).count();
    last.get(zeros..).unwrap_or(&[])
}

// The number that one more digit makes. A zero byte is passed over.
fn more(value: u16, digit: u8) -> Option<u16> {
    match digit {
        0 => Some(value),
        b'0'..=b'9' => value.checked_mul(10)?.checked_add(u16::from(digit - b'0')),
        _ => None,
    }
}

// The number from 0 to 65535 that a word writes with one to five digits.
pub fn number(word: &[u8]) -> Option<u16> {
    match letters(word) {
        [] | [.., 0] | [_, _, _, _, _, _, ..] => None,
        digits => digits
            .iter()
            .try_fold(0, |value, digit| more(value, *digit)),
    }
}

// How much of a room is lent: less than N entries.
#[derive(Clone, Copy)]
pub struct Length<const N: usize> {
    pub entries: usize,
    ghost fits: { entries < N },
}

// ---- words

// The words of a text that are left. Each has one space before it; two spaces have an empty word between them.
#[derive(Clone, Copy)]
pub struct Words<'a> {
    text: &'a [u8],
}

impl<'a> Iterator for Words<'a> {
    type Item = &'a [u8];

    ghost remaining = { λ words. at_most (length words.text.now) };

    fn next(&mut self) -> Option<&'a [u8]> {
        let space = self.text.iter().position(|letter| *letter == b' ')?;
        let rest = &self.text[space + 1..];
        let long = rest.iter().take_while(|letter| **letter != b' ').count();
        let (word, text) = rest.split_at(long);
        self.text = text;
        Some(word)
    }
}

impl<'a> Words<'a> {
    // The words of a text, which begin at its first space.
    pub fn of(text: &'a [u8]) -> Words<'a> {
        Words { text }
    }

    // The next word as a number.
    pub fn number(&mut self) -> Option<u16> {
        number(self.next()?)
    }

    // The next word as a number from 0 to 255.
    pub fn byte(&mut self) -> Option<u8> {
        u8::try_from(self.number()?).ok()
    }

    // The next word as a length in a room of N entries.
    // Rules out: N itself `the_length_of_the_whole_room`; a number above N.
    pub fn length<const N: usize>(&mut self) -> Option<Length<N>>
        ensures { IfSome result (λ long. long.entries < N) }
    {
        let entries = usize::from(self.number()?);
        if entries < N {
            Some(Length { entries })
        } else {
            None
        }
    }
}

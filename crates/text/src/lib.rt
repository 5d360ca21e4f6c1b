// Text written by a pen: bytes, numbers in decimal, with a sign where they have one, labels and letters. Each method promises that its
// bytes stand from the pen's place on, as far as the text reaches, and that the pen is after them, on the same text. A byte past the
// text's end is not stored, so no caller has to ask for room.
#![tactic(auto)]

ghost use Rattle.std.specs.Prelude.{◌≡◌, [], ◌∷◌, ◌++◌, ◌+◌, ◌≤◌, ◌<◌, pos, nat_abs, length};
ghost use Rattle.rules.specs.Forwarding.{letter};
ghost use Rattle.rules.specs.Report.{digits, decimal, signed};
ghost use Rattle.text.specs.Text.{Wrote, number_room, signed_room, field_room, label_room, labelled_room, field};
ghost use Rattle.text.specs.Pen.{Writes};

use rules::Kind;
use slices::store;

// A text, and the place where its next byte goes.
#[derive(Drop)]
pub struct Pen<'a> {
    pub text: &'a mut [u8],
    pub at: usize,
}

impl Pen<'_> {
    // One byte.
    // Rules out: the same place kept, not the one after; the last byte overwritten where its own place is past the end.
    pub fn put(&mut self, x: u8)
        requires { self.old.at < 4294967296 }
        ensures { Writes self.old (x ∷ []) 1 self.new }
    {
        store::byte(self.text, self.at, x);
        self.at += 1;
    }

    // A byte string.
    // Rules out: the last byte left out; the bytes in reverse.
    pub fn copy(&mut self, bytes: &[u8])
        requires { (self.old.at < 16777216) × (length bytes.now < 256) }
        ensures { Writes self.old bytes.now (length bytes.now) self.new }
    {
        for byte in bytes {
            self.put(*byte);
        }
    }

    // A number in decimal.
    // Rules out: a 0 before other digits; the digits in reverse.
    pub fn number(&mut self, x: usize)
        requires { self.old.at < 16777216 }
        ensures { Writes self.old (decimal x) number_room self.new }
    {
        // most numbers of a report are short
        if x < 10 {
            self.put(b'0' + x as u8);
        } else {
            self.at = digits(self.text, self.at, x, 19);
        }
    }

    // A number in decimal, a minus sign before it where it is below zero.
    // Rules out: -1 written as 1 `sign_lost`; a minus sign before 0.
    pub fn signed(&mut self, x: i32)
        requires { self.old.at < 8388608 }
        ensures { Writes self.old (signed x) signed_room self.new }
    {
        if x < 0 {
            self.put(b'-');
        }
        self.number(x.unsigned_abs() as usize);
    }

    // A number after its label.
    // Rules out: the number before its label; the label alone.
    pub fn labelled(&mut self, label: &[u8], x: usize)
        requires { (self.old.at < 8388608) × (length label.now ≤ label_room) }
        ensures { Writes self.old (label.now ++ decimal x) labelled_room self.new }
    {
        self.copy(label);
        self.number(x);
    }

    // A number and the space after it.
    // Rules out: no space after the number; two spaces after it.
    pub fn field(&mut self, x: u8)
        requires { self.old.at < 8388608 }
        ensures { Writes self.old (field x) field_room self.new }
    {
        self.number(usize::from(x));
        self.put(b' ');
    }
}

// The digits of x from a place on: the last `more` and one before them, at most. By the text and the place, not by the pen: a pen that
// is lent to a call that is not inlined would be kept in memory, and the report be slower by an eighth.
fn digits(text: &mut [u8], at: usize, x: usize, more: u8) -> usize
    requires { (at < 16777216) × (more < number_room) }
    ensures { Wrote text.old at (digits more x) (more + 1) result text.new }
{
    if more == 0 {
        store::byte(text, at, b'0' + (x % 10) as u8);
        return at + 1;
    }
    if x < 10 {
        store::byte(text, at, b'0' + x as u8);
        return at + 1;
    }
    let last = digits(text, at, x / 10, more - 1);
    store::byte(text, last, b'0' + (x % 10) as u8);
    last + 1
}

// A kind of change by its letter.
// Rules out: S for kind T; a space for no change, which is a dash.
pub fn letter(kind: Kind) -> u8
    ensures { result ≡ letter kind }
{
    match kind {
        Kind::Unchanged => b'-',
        Kind::T => b'T',
        Kind::S => b'S',
        Kind::D => b'D',
    }
}

// What the programs share: a number among the arguments, and a file read into room that is lent. What a text means
// as a number is promised whole. What the system gives as arguments and input, and what it does with what is written, no contract can say.
#![tactic(auto)]

mod number; // number.rt: what digits mean

ghost use Rattle.std.specs.Prelude.{◌≤◌, length, IfOk};

pub use number::number_in;
use std::env::{Env, FillError};
use std::io;
use std::io::{ErrorKind, Read, Write};

// Argument i as a number; one that is missing, or too long for its room, is none. The program's own name is argument 0.
pub fn argument<E: Env>(environment: &E, i: usize) -> Option<u8> {
    let mut text = [0u8; 8];
    let long = environment.arg(i, &mut text).ok()?;
    number_in(&text[..long])
}

// Whether there is an argument i, of any length: room for none of its bytes tells an empty one, and one that is too long, from a missing one.
fn is_given<E: Env>(environment: &E, i: usize) -> bool {
    !matches!(environment.arg(i, &mut []), Err(FillError::NotPresent))
}

// How many arguments the program was started with, its own name among them.
pub fn argument_count<E: Env>(environment: &E) -> usize {
    (0..usize::MAX)
        .take_while(|i| is_given(environment, *i))
        .count()
}

// Reads until the room is full, the input ends or a read fails: how many bytes stand at the start of the room, and whether a read failed.
// A read that a signal interrupts is tried again, and nothing past the room is read.
// Rules out: one byte more than were read `a_byte_that_no_read_gave`; a count from one read twice, past the end of the room.
pub fn fill<R: Read>(input: &mut R, room: &mut [u8]) -> (usize, io::Result<()>)
    ensures { result.0 ≤ length room.new }
{
    let mut long = 0;
    for _ in 0..u64::MAX {
        if long == room.len() {
            break;
        }
        match input.read(&mut room[long..]) {
            Ok(0) => break,
            Ok(more) => long += more,
            Err(error) if error.kind() == ErrorKind::Interrupted => {}
            Err(error) => return (long, Err(error)),
        }
    }
    (long, Ok(()))
}

// Reads until the room is full or the input ends, and returns how many bytes stand at the start of the room. Nothing past the room is read.
// Rules out: the length of an input that the room does not hold; a count from one read twice, past the end of the room.
pub fn read_full<R: Read>(input: &mut R, room: &mut [u8]) -> io::Result<usize>
    ensures { IfOk result (λ long. long ≤ length room.new) }
{
    let (long, read) = fill(input, room);
    read?;
    Ok(long)
}

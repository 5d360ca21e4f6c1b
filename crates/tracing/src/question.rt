// The question that the arguments ask.
use console::{argument, argument_count};
use std::env::Env;
use std::fmt;

// What is down: nothing, a link by its two ends, or a node.
#[derive(Clone, Copy)]
pub enum Down {
    Nothing,
    Link(u8, u8),
    Node(u8),
}

#[derive(Clone, Copy)]
pub struct Question {
    pub down: Down,
    pub source: u8,
    pub destination: u8,
}

// The arguments ask nothing that is understood. It is written as what was expected, a whole line in one piece.
#[derive(Clone, Copy, Debug)]
pub struct Unclear;

impl fmt::Display for Unclear {
    fn fmt<W: fmt::Write>(&self, f: &mut fmt::Formatter<W>) -> fmt::Result {
        writeln!(
            f,
            "expected: trace nothing SOURCE DESTINATION, or trace link A B SOURCE DESTINATION, or trace node V SOURCE DESTINATION, with numbers from 0 to 255; the set's file on standard input"
        )
    }
}

// Argument i is this word.
fn is_word<E: Env>(environment: &E, i: usize, word: &[u8]) -> bool {
    let mut text = [0u8; 8];
    match environment.arg(i, &mut text) {
        Ok(long) => &text[..long] == word,
        Err(_) => false,
    }
}

// Argument i as a number.
fn number<E: Env>(environment: &E, i: usize) -> Result<u8, Unclear> {
    argument(environment, i).ok_or(Unclear)
}

// What is down, which begins at argument 1, where there are so many arguments.
fn what_is_down<E: Env>(environment: &E, count: usize) -> Result<Down, Unclear> {
    match count {
        4 if is_word(environment, 1, b"nothing") => Ok(Down::Nothing),
        5 if is_word(environment, 1, b"node") => Ok(Down::Node(number(environment, 2)?)),
        6 if is_word(environment, 1, b"link") => {
            Ok(Down::Link(number(environment, 2)?, number(environment, 3)?))
        }
        _ => Err(Unclear),
    }
}

// The arguments are counted with the program's own name. The last two are the source and the destination.
pub fn read<E: Env>(environment: &E) -> Result<Question, Unclear> {
    let count = argument_count(environment);
    let down = what_is_down(environment, count)?;
    Ok(Question {
        down,
        source: number(environment, count.saturating_sub(2))?,
        destination: number(environment, count.saturating_sub(1))?,
    })
}

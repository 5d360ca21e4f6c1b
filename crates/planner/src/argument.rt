// The program's one argument: the cap.
use console::{argument, argument_count};
use std::env::Env;
use std::fmt;

// The arguments ask nothing that is understood. It is written as what was expected, a whole line in one piece.
#[derive(Clone, Copy, Debug)]
pub struct Unclear;

impl fmt::Display for Unclear {
    fn fmt<W: fmt::Write>(&self, f: &mut fmt::Formatter<W>) -> fmt::Result {
        writeln!(
            f,
            "expected: planner, or planner CAP, with CAP a number from 0 to 255; the graph's file on standard input"
        )
    }
}

// The cap that is asked for, if one is. The arguments are counted with the program's own name.
pub fn read<E: Env>(environment: &E) -> Result<Option<u8>, Unclear> {
    match argument_count(environment) {
        0 | 1 => Ok(None),
        2 => Ok(Some(argument(environment, 1).ok_or(Unclear)?)),
        _ => Err(Unclear),
    }
}

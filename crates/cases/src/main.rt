// Runs the cases that the file `cases` lists, and writes what each answers. What must be written stands in stdout, made after
// documents 01 and 02 and not by this program; the gate compares.
//
// A case is a line, `NAME: ENTRY FILE WORDS CHANGES`, with one space before each word. NAME is any text. FILE is a file in data/.
// Empty lines, and lines that begin with `#`, are passed over. The entries, with the words that each takes:
//
//     take FILE                               read into lists that are long enough, which are not shown
//     read FILE A B WEIGHTS HOMES ROWS        into lists of these lengths, each entry 7 before; the lists after it
//     write FILE ROOM                         the lists as they stand in the file's bytes, into a lent file as `build`
//     build FILE CAP ROOM                     into a lent file of ROOM bytes, each 238 before; the set, or the first byte lent
//     tables FILE ROOM                        into ROOM bytes, each 238 before; the tables, or the first byte lent
//     reported FILE ROOM                      the report into ROOM bytes, each 238 before; its length, or the first byte lent
//     run FILE SOURCE DESTINATION FAILURE     one packet; FAILURE is `nothing`, `link L` or `node V`
//     run .. FAILURE TABLES TRAIL             the same in lent rooms of these lengths
//     step FILE PLACE DESTINATION FAILURE TOPOLOGY TABLES ENTRY
//                                             one step by lent tables of TABLES bytes, each of them ENTRY
//     sweep FILE                              every single failure, with every source and every other destination
//     report FILE                             the report, in lines of its own
//
// Any number of changes of the file may follow: `long N`, cut to N bytes or lengthened with zero bytes, and `byte P V`, byte P made
// a V. To add a case, write its line in data/cases, its file into data/ where it needs a new one, and the lines that it must write
// into stdout at the same place among the others. A line that is not understood says so, and so does one whose file is not there,
// or that asks for more room than there is. Where an answer cannot be written, the program ends with that error.
//
// To add an entry: its name and its words in crates/wording/src/asked.rt, its function in entry.rt.
#![tactic(auto)]

mod entry; // entry.rt: what is asked of the file, one function for each entry
mod sweep; // sweep.rt: every single failure of a set

ghost use Rattle.std.specs.Prelude.{◌≤◌, length, IfSome};

use console::fill;
use phrases::show;
use rooms::file_and_one;
use std::fs::File;
use std::io;
use std::io::Write;
use std::rt::Files;
use wording::asked::{Case, Entry};
use wording::change;

// ---- one case

// The length of the file with this name, which is read into the room; None where there is no such file. A name is text in UTF-8. A read
// that fails ends the file there, so that the cases after it are answered all the same.
fn stored<R: Files>(files: &R, name: &[u8], room: &mut [u8]) -> Option<usize>
    ensures { IfSome result (λ long. long ≤ length room.new) }
{
    let path = str::from_utf8(name).ok()?;
    let mut file = File::open(files, path).ok()?;
    let (long, _) = fill(&mut file, room);
    Some(long)
}

// The case's entry and the length of its file, which stands in the room as the case has it; None where the case is not understood.
fn understood<R: Files>(files: &R, text: &[u8], room: &mut [u8]) -> Option<(Entry, usize)> {
    let case = Case::parse(text)?;
    let long = stored(files, case.file, room)?;
    let long = change::all(case.changes, room, long)?;
    Some((case.entry, long))
}

fn case<R: Files, W: Write>(files: &R, out: &mut W, text: &[u8]) -> io::Result<()> {
    let mut room = file_and_one();
    match understood(files, text, &mut room) {
        Some((entry, long)) => entry::answer(out, entry, &room[..long.min(room.len())]),
        None => show::unclear(out),
    }
}

// ---- the list

// A line's name ends at its last colon. A line with no colon is all name.
fn line<R: Files, W: Write>(files: &R, out: &mut W, line: &[u8]) -> io::Result<()> {
    let colon = line.iter().rposition(|letter| *letter == b':');
    let (name, text) = line.split_at(colon.unwrap_or(line.len()));
    out.write_all(name)?;
    case(files, out, text)
}

fn each_line<R: Files, W: Write>(files: &R, out: &mut W, list: &[u8]) -> io::Result<()> {
    for text in list.split(|letter| *letter == b'\n') {
        match text.first() {
            None | Some(0 | b'#') => {}
            Some(_) => line(files, out, text)?,
        }
    }
    Ok(())
}

// The longest list of cases, in bytes; what follows is not read.
const LONGEST_LIST: usize = 65536;

fn main(rt: HostRuntime) -> io::Result<()> {
    let mut list = [0; LONGEST_LIST];
    match stored(&rt, b"cases", &mut list) {
        Some(long) => each_line(&rt, &mut rt.stdout(), &list[..long]),
        None => Ok(()),
    }
}

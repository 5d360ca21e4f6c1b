// What a case asks. Word 0 is the entry's name, word 1 the file's; then the numbers that the entry takes, and the changes.
use crate::{Length, Words, letters};
use std::fmt;

// Room for ends, homes or a trail; for weights; for a file; for tables or a text.
pub const LIST: usize = 256;

pub const WEIGHTS: usize = 8192;

pub const FILE: usize = 16384;

pub const TABLES: usize = 65536;

// What has failed: nothing, or a link or node by its number.
#[derive(Clone, Copy)]
pub enum Down {
    Nothing,
    Link(u16),
    Node(u16),
}

impl Down {
    // `nothing`, `link L` or `node V`.
    fn parse(words: &mut Words<'_>) -> Option<Down> {
        match letters(words.next()?) {
            b"nothing" => Some(Down::Nothing),
            b"link" => Some(Down::Link(words.number()?)),
            b"node" => Some(Down::Node(words.number()?)),
            _ => None,
        }
    }

    // Its kind and number, as C counts them.
    pub fn numbers(self) -> (u8, u16) {
        match self {
            Down::Nothing => (0, 0),
            Down::Link(l) => (1, l),
            Down::Node(v) => (2, v),
        }
    }
}

impl fmt::Display for Down {
    fn fmt<W: fmt::Write>(&self, f: &mut fmt::Formatter<W>) -> fmt::Result {
        match *self {
            Down::Nothing => write!(f, "nothing 0"),
            Down::Link(l) => write!(f, "link {l}"),
            Down::Node(v) => write!(f, "node {v}"),
        }
    }
}

// Where a packet starts, or stands; where it goes; and what has failed.
#[derive(Clone, Copy)]
pub struct Trip {
    pub from: u8,
    pub to: u8,
    pub down: Down,
}

impl Trip {
    // `FROM TO FAILURE`.
    fn parse(words: &mut Words<'_>) -> Option<Trip> {
        Some(Trip {
            from: words.byte()?,
            to: words.byte()?,
            down: Down::parse(words)?,
        })
    }
}

// The lengths of the lists that are read into.
#[derive(Clone, Copy)]
pub struct Lists {
    pub a: Length<LIST>,
    pub b: Length<LIST>,
    pub weights: Length<WEIGHTS>,
    pub homes: Length<LIST>,
    pub rows: Length<WEIGHTS>,
}

impl Lists {
    // `A B WEIGHTS HOMES ROWS`.
    fn parse(words: &mut Words<'_>) -> Option<Lists> {
        Some(Lists {
            a: words.length()?,
            b: words.length()?,
            weights: words.length()?,
            homes: words.length()?,
            rows: words.length()?,
        })
    }
}

// The lent tables of a step, each entry the same.
#[derive(Clone, Copy)]
pub struct Tables {
    pub room: Length<TABLES>,
    pub entry: u8,
}

// What the file goes into, and with which numbers.
#[derive(Clone, Copy)]
pub enum Entry {
    Take,
    Sweep,
    Report,
    Reported(Length<TABLES>),
    Read(Lists),
    Write(Length<FILE>),
    Build(u8, Length<FILE>),
    Tables(Length<TABLES>),
    // A room that is not told is as long as there is.
    Run(Trip, Option<u16>, Option<u16>),
    // The topology that the packet is in stands before the tables.
    Step(Trip, u8, Tables),
}

// `SOURCE DESTINATION FAILURE`, and then `TABLES TRAIL` or nothing. What stands where the trail's length would is taken for it, even
// where no tables' length stands before it, and then may be a part of a change too.
fn parse_run(words: &mut Words<'_>) -> Option<Entry> {
    let trip = Trip::parse(words)?;
    let mut rest = *words;
    let tables = rest.number();
    let trail = rest.number();
    if tables.is_some() {
        *words = rest;
    }
    Some(Entry::Run(trip, tables, trail))
}

// `PLACE DESTINATION FAILURE TOPOLOGY TABLES ENTRY`.
fn parse_step(words: &mut Words<'_>) -> Option<Entry> {
    let trip = Trip::parse(words)?;
    let topology = words.byte()?;
    let tables = Tables {
        room: words.length()?,
        entry: words.byte()?,
    };
    Some(Entry::Step(trip, topology, tables))
}

impl Entry {
    fn parse(name: &[u8], words: &mut Words<'_>) -> Option<Entry> {
        match letters(name) {
            b"take" => Some(Entry::Take),
            b"sweep" => Some(Entry::Sweep),
            b"report" => Some(Entry::Report),
            b"reported" => Some(Entry::Reported(words.length()?)),
            b"read" => Some(Entry::Read(Lists::parse(words)?)),
            b"write" => Some(Entry::Write(words.length()?)),
            b"build" => Some(Entry::Build(words.byte()?, words.length()?)),
            b"tables" => Some(Entry::Tables(words.length()?)),
            b"run" => parse_run(words),
            b"step" => parse_step(words),
            _ => None,
        }
    }
}

// A case: the entry, the name of its file, and the changes.
#[derive(Clone, Copy)]
pub struct Case<'a> {
    pub entry: Entry,
    pub file: &'a [u8],
    pub changes: Words<'a>,
}

impl<'a> Case<'a> {
    pub fn parse(text: &'a [u8]) -> Option<Case<'a>> {
        let mut words = Words::of(text);
        let name = words.next()?;
        let file = words.next()?;
        let entry = Entry::parse(name, &mut words)?;
        Some(Case {
            entry,
            file,
            changes: words,
        })
    }
}

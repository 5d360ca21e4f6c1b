// The entries: one small function for each, over the file as the case has it. They are the library's own, as C calls them; their answers
// are read from the words that C gets. But for the report, which the program `coverage` writes.
ghost use Rattle.std.specs.Prelude.{◌≡◌, length};
ghost use Rattle.rules.specs.Limits.{need_counts};

use crate::sweep;
use burnishpeg::{
    burnishpeg_build, burnishpeg_read, burnishpeg_report, burnishpeg_run, burnishpeg_step,
    burnishpeg_tables, burnishpeg_write,
};
use layout::{header, home_topology, row_weight};
use listing::lists_into;
use phrases::answer::Refusal;
use phrases::{answer, show};
use recordrules::counts;
use rules::{Journey, Network};
use std::io;
use std::io::Write;
use wording::Length;
use wording::asked::{Entry, FILE, LIST, Lists, TABLES, Tables, Trip, WEIGHTS};

// What stands in lent bytes before.
const BYTE: u8 = 238;

// Lists that are long enough for every file.
#[derive(Clone, Copy)]
struct Lent {
    a: [u8; LIST],
    b: [u8; LIST],
    weights: [u16; WEIGHTS],
    homes: [u8; LIST],
    rows: [u16; WEIGHTS],
}

impl Lent {
    // Each entry is 7 before.
    fn new() -> Lent
        ensures { (256 ≡ length result.a) × (256 ≡ length result.b) × (8192 ≡ length result.weights) × (256 ≡ length result.homes) × (8192 ≡ length result.rows) }
    {
        Lent {
            a: [7; LIST],
            b: [7; LIST],
            weights: [7; WEIGHTS],
            homes: [7; LIST],
            rows: [7; WEIGHTS],
        }
    }
}

// ---- take FILE

// Read into lists which are not shown.
fn take(file: &[u8]) -> Result<Network, Refusal> {
    let mut to = Lent::new();
    answer::network(burnishpeg_read(
        file,
        &mut to.a,
        &mut to.b,
        &mut to.weights,
        &mut to.homes,
        &mut to.rows,
    ))
}

// ---- report FILE

// The report has lines of its own, below the name's.
fn report<W: Write>(out: &mut W, file: &[u8]) -> io::Result<()> {
    writeln!(out, ":")?;
    printer::show(out, file)
}

// ---- read FILE A B WEIGHTS HOMES ROWS

fn read<W: Write>(out: &mut W, lists: Lists, file: &[u8]) -> io::Result<()> {
    let mut to = Lent::new();
    let a = &mut to.a[..lists.a.entries];
    let b = &mut to.b[..lists.b.entries];
    let weights = &mut to.weights[..lists.weights.entries];
    let homes = &mut to.homes[..lists.homes.entries];
    let rows = &mut to.rows[..lists.rows.entries];
    let word = burnishpeg_read(file, a, b, weights, homes, rows);
    show::counts(out, answer::network(word))?;
    show::list(out, "ends a", a)?;
    show::list(out, "ends b", b)?;
    show::list(out, "weights", weights)?;
    show::list(out, "homes", homes)?;
    show::list(out, "rows", rows)
}

// ---- build FILE CAP ROOM

fn homes<W: Write>(out: &mut W, set: &[u8], net: Network) -> io::Result<()> {
    write!(out, "  homes")?;
    for v in 0..net.home_records() {
        write!(out, " {}", home_topology(set, net, v))?;
    }
    writeln!(out)
}

fn row<W: Write>(out: &mut W, set: &[u8], net: Network, j: u8) -> io::Result<()> {
    write!(out, "  row")?;
    for l in 0..net.row_weights() {
        write!(out, " {}", row_weight(set, net, usize::from(j), l))?;
    }
    writeln!(out)
}

fn rows<W: Write>(out: &mut W, set: &[u8], net: Network) -> io::Result<()> {
    for j in 0..net.k {
        row(out, set, net, j)?;
    }
    Ok(())
}

// The set at the front of a lent file: its homes and its rows; whether it is taken in; the byte that follows. Or the refusal.
fn built<W: Write>(out: &mut W, word: u64, lent: &[u8]) -> io::Result<()> {
    let long = match answer::length(word) {
        Ok(long) => long,
        Err(refusal) => return show::refused(out, refusal, lent),
    };
    let net = header(lent);
    show::bytes(out, long)?;
    homes(out, lent, net)?;
    rows(out, lent, net)?;
    write!(out, "  read back")?;
    show::verdict(out, take(lent.get(..long).unwrap_or(lent)))?;
    show::byte(out, "the byte after it", lent, long)
}

fn build<W: Write>(out: &mut W, cap: u8, room: Length<FILE>, graph: &[u8]) -> io::Result<()> {
    let mut file = [BYTE; FILE];
    let lent = &mut file[..room.entries];
    let word = burnishpeg_build(graph, cap, lent);
    built(out, word, lent)
}

// ---- write FILE ROOM

// The lists as they stand in the file's bytes, by the counts of its header, written into a lent file.
fn write_lists<W: Write>(
    out: &mut W,
    net: Network,
    room: Length<FILE>,
    file: &[u8],
) -> io::Result<()>
    requires { need_counts net 0 ≡ 0 }
{
    let mut from = Lent::new();
    lists_into(
        file,
        net,
        &mut from.a,
        &mut from.b,
        &mut from.weights,
        &mut from.homes,
        &mut from.rows,
    );
    let mut set = [BYTE; FILE];
    let lent = &mut set[..room.entries];
    let word = burnishpeg_write(
        net.n,
        net.m,
        net.k,
        net.wmax,
        &from.a,
        &from.b,
        &from.weights,
        &from.homes,
        &from.rows,
        lent,
    );
    built(out, word, lent)
}

// Counts outside their ranges have no lists here.
fn write<W: Write>(out: &mut W, room: Length<FILE>, file: &[u8]) -> io::Result<()> {
    let net = header(file);
    match counts(net) {
        Ok(()) => write_lists(out, net, room, file),
        Err(_) => show::unclear(out),
    }
}

// ---- tables FILE ROOM, reported FILE ROOM

// So many bytes, and the one after them; or the refusal.
fn written<W: Write>(out: &mut W, long: Result<usize, Refusal>, lent: &[u8]) -> io::Result<()> {
    match long {
        Ok(long) => {
            show::bytes(out, long)?;
            show::byte(out, "the byte after it", lent, long)
        }
        Err(refusal) => show::refused(out, refusal, lent),
    }
}

fn tables<W: Write>(out: &mut W, room: Length<TABLES>, set: &[u8]) -> io::Result<()> {
    let mut tables = [BYTE; TABLES];
    let lent = &mut tables[..room.entries];
    let long = answer::length(burnishpeg_tables(set, lent));
    written(out, long, lent)?;
    match long {
        Ok(long) => show::list(out, "tables", lent.get(..long).unwrap_or(lent)),
        Err(_) => Ok(()),
    }
}

fn reported<W: Write>(out: &mut W, room: Length<TABLES>, set: &[u8]) -> io::Result<()> {
    let mut text = [BYTE; TABLES];
    let lent = &mut text[..room.entries];
    let long = answer::length(burnishpeg_report(set, lent));
    written(out, long, lent)
}

// ---- run FILE SOURCE DESTINATION FAILURE, and then TABLES TRAIL or nothing

// One run, as the library answers it.
pub fn ended(
    set: &[u8],
    trip: Trip,
    tables: &mut [u8],
    trail: &mut [u8],
) -> Result<Journey, Refusal> {
    let (kind, failed) = trip.down.numbers();
    answer::journey(burnishpeg_run(set, trip.from, trip.to, kind, failed, tables, trail))
}

// A length that is not told, or longer than the room, is the whole room's.
fn part(room: &mut [u8], long: Option<u16>) -> &mut [u8] {
    let most = room.len();
    let long = long.map_or(most, usize::from).min(most);
    &mut room[..long]
}

fn run<W: Write>(
    out: &mut W,
    trip: Trip,
    tables: Option<u16>,
    trail: Option<u16>,
    set: &[u8],
) -> io::Result<()> {
    let mut a = [0; TABLES];
    let mut b = [0; LIST];
    let run = ended(set, trip, part(&mut a, tables), part(&mut b, trail));
    show::ended(out, run, &b)
}

// ---- step FILE PLACE DESTINATION FAILURE TOPOLOGY TABLES ENTRY: by lent tables of so many bytes, each the same entry

fn alike(entry: u8) -> [u8; TABLES] {
    [entry; TABLES]
}

fn step<W: Write>(
    out: &mut W,
    trip: Trip,
    topology: u8,
    lent: Tables,
    set: &[u8],
) -> io::Result<()> {
    let tables = alike(lent.entry);
    let tables = &tables[..lent.room.entries];
    let (kind, failed) = trip.down.numbers();
    let word = burnishpeg_step(set, tables, trip.from, trip.to, topology, kind, failed);
    show::stepped(out, answer::step(word))
}

// ---- all of them

pub fn answer<W: Write>(out: &mut W, entry: Entry, file: &[u8]) -> io::Result<()> {
    match entry {
        Entry::Take => show::verdict(out, take(file)),
        Entry::Sweep => sweep::all(out, file),
        Entry::Report => report(out, file),
        Entry::Reported(room) => reported(out, room, file),
        Entry::Read(lists) => read(out, lists, file),
        Entry::Write(room) => write(out, room, file),
        Entry::Build(cap, room) => build(out, cap, room, file),
        Entry::Tables(room) => tables(out, room, file),
        Entry::Run(trip, tables, trail) => run(out, trip, tables, trail, file),
        Entry::Step(trip, topology, tables) => step(out, trip, topology, tables, file),
    }
}

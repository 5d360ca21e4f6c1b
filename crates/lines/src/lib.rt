// The lines of the report, and its whole text: the header line, a line for each node and each other destination, the count of the
// detections. `write` promises the text of the report on an accepted file, byte for byte as far as the room reaches, and its length.
#![tactic(auto)]

ghost use Rattle.std.specs.Prelude.{◌≡◌, ◌≤◌, ◌<◌, pos, ◌-ℤ◌};
ghost use Rattle.rules.specs.File.{set_of};
ghost use Rattle.rules.specs.Report.{header_line, detection_lines, report_text};
ghost use Rattle.text.specs.Text.{Wrote};
ghost use Rattle.text.specs.Pen.{Writes};
ghost use Rattle.detections.specs.Detection.{Pair};
ghost use Rattle.lines.specs.Lines.{head_of, change_of, tail_of, line_of, line_for, node_lines, last_of, head_room, change_room, tail_room, line_room, node_room, lines_room, header_room, last_room, text_room};

use detections::{OwnTables, Seen};
use rules::{Kind, Network};
use text::{Pen, letter};

// ---- a line

// The detecting node, its next hop, the destination.
fn head(pen: &mut Pen, u: u8, via: u8, t: u8)
    requires { pen.old.at < 1048576 }
    ensures { Writes pen.old (head_of u via t) head_room pen.new }
{
    pen.field(u);
    pen.field(via);
    pen.field(t);
}

// The kind, the topology changed to, the neighbour taken.
fn change(pen: &mut Pen, kind: Kind, topology: u8, next: u8)
    requires { pen.old.at < 2097152 }
    ensures { Writes pen.old (change_of kind topology next) change_room pen.new }
{
    pen.put(letter(kind));
    pen.put(b' ');
    pen.field(topology);
    pen.field(next);
}

// The extra hops: those of the backup path minus those in topology 0, below zero where it is the shorter.
fn extra(hops: u8, plain: u8) -> i32
    ensures { result ≡ pos hops -ℤ pos plain }
{
    let backup = i32::from(hops);
    let before = i32::from(plain);
    backup - before
}

// The hops, the extra hops, the line's end.
fn tail(pen: &mut Pen, hops: u8, plain: u8)
    requires { pen.old.at < 2097152 }
    ensures { Writes pen.old (tail_of hops plain) tail_room pen.new }
{
    pen.field(hops);
    pen.signed(extra(hops, plain));
    pen.put(b'\n');
}

fn line(pen: &mut Pen, u: u8, t: u8, seen: Seen)
    requires { pen.old.at < 1048576 }
    ensures { Writes pen.old (line_of u t seen) line_room pen.new }
{
    head(pen, u, seen.via, t);
    change(pen, seen.kind, seen.topology, seen.next);
    tail(pen, seen.hops, seen.plain);
}

// ---- the lines in order

// Node u's line for t, or none where t is u itself.
fn line_for(pen: &mut Pen, set: &OwnTables, u: u8, t: u8)
    requires pair { Pair set.now.routed.file.net u t }
    requires at_bound { pen.old.at < 1048576 }
    ensures { Writes pen.old (line_for (set_of set.now.routed.file.bytes.now) u t) line_room pen.new }
{
    if u != t {
        let seen = set.detect(u, t);
        line(pen, u, t, seen);
    }
}

// Node u's lines, by destination.
fn node_lines(pen: &mut Pen, set: &OwnTables, u: u8)
    requires u_lt_n { u < set.now.routed.file.net.n }
    requires at_bound { pen.old.at < 524288 }
    ensures { Writes pen.old (node_lines (set_of set.now.routed.file.bytes.now) u) node_room pen.new }
{
    for t in 0..set.routed.file.net.n {
        line_for(pen, set, u, t);
    }
}

// The lines of all nodes.
fn all_lines(pen: &mut Pen, set: &OwnTables)
    requires { pen.old.at ≤ header_room }
    ensures { Writes pen.old (detection_lines (set_of set.now.routed.file.bytes.now)) lines_room pen.new }
{
    for u in 0..set.routed.file.net.n {
        node_lines(pen, set, u);
    }
}

// ---- the whole text

// The header line never varies.
fn header(pen: &mut Pen)
    requires { pen.old.at ≡ 0 }
    ensures { Writes pen.old header_line header_room pen.new }
{
    pen.copy(b"node via dest kind topology next hops extra\n");
}

// The last line: how many detections there are.
fn last_line(pen: &mut Pen, net: Network)
    requires le_n { (3 ≤ net.n) × (net.n ≤ 32) }
    requires at_bound { pen.old.at < 1048576 }
    ensures { Writes pen.old (last_of net.n) last_room pen.new }
{
    pen.labelled(b"detections ", net.detections());
    pen.put(b'\n');
}

fn whole(pen: &mut Pen, set: &OwnTables)
    requires { pen.old.at ≡ 0 }
    ensures { Writes pen.old (report_text (set_of set.now.routed.file.bytes.now)) text_room pen.new }
{
    header(pen);
    all_lines(pen, set);
    last_line(pen, set.routed.file.net);
}

// The whole text of an accepted file's report; returns its length.
// Rules out: n × (n - 2) in the last line `rules/fewer_detections`; two words of the first line exchanged
// `header_words_swapped`.
pub fn write(set: &OwnTables, text: &mut [u8]) -> usize
    ensures { Wrote text.old 0 (report_text (set_of set.now.routed.file.bytes.now)) text_room result text.new }
{
    let mut pen = Pen { text, at: 0 };
    whole(&mut pen, set);
    pen.at
}

// The report on a set: what each router does, and how far its packets go, where the link to its next hop is down; one line for each
// node and each other destination, so that both ends of every link stand in it. The entry `report` takes every file; its promise
// fixes the text, byte for byte, or the refusal. `print` promises the text that the report program prints, the refusal's line too.
#![tactic(auto)]

ghost use Rattle.std.specs.Prelude.{◌≡◌, ◌≤◌, length};
ghost use Rattle.rules.specs.Verdict.{Accepted, number_of};
ghost use Rattle.rules.specs.Limits.{tables_length};
ghost use Rattle.rules.specs.File.{header_of, set_of};
ghost use Rattle.rules.specs.Judgement.{take_set};
ghost use Rattle.rules.specs.Report.{report_text, refusal_line};
ghost use Rattle.rules.specs.Entries.Entry.{Promise};
ghost use Rattle.rules.specs.Entries.Report.{report_entry};
ghost use Rattle.text.specs.Text.{Wrote};
ghost use Rattle.text.specs.Pen.{Writes};
ghost use Rattle.anyroom.specs.Laying.{Copied};
ghost use Rattle.report.specs.Answer.{Made, Says, Printed, refusal_room};

use anyroom::lay_text;
use detections::OwnTables;
use layout::header;
use lines::write;
use linkstate::NetworkFile;
use onehop::Routed;
use rooms::{FEW_TABLES, few_tables, room};
use rules::{Network, Refusal};
use tables::tables;
use text::Pen;

// ---- the text into lent room

// The text, made in room of its own and laid into the room that is lent.
fn apart(set: &OwnTables, text: &mut [u8]) -> Result<usize, Refusal>
    ensures { Copied (report_text (set_of set.now.routed.file.bytes.now)) text.old result text.new }
{
    let mut made = room::<{ Network::LONGEST_REPORT }>();
    let long = write(set, &mut made);
    lay_text(&made[..long], text)
}

// The text, or 14. Where every report on so many nodes fits it is written straight into the lent room: to clear room for the longest
// costs more than a small report.
#[tactic(auto, using(crate::proofs::Answers::straight))]
fn text_into(set: &OwnTables, text: &mut [u8]) -> Result<usize, Refusal>
    ensures { Copied (report_text (set_of set.now.routed.file.bytes.now)) text.old result text.new }
{
    let enough = set.routed.file.net.report_room();
    if enough <= text.len() {
        return Ok(write(set, text));
    }
    apart(set, text)
}

// The report by the tables that were made, or the refusal that came in their place.
fn report_by<'a>(
    made: Result<usize, Refusal>,
    file: &'a [u8],
    tables: &'a [u8],
    text: &mut [u8],
) -> Result<usize, Refusal>
    requires { Made file.now made tables.now }
    ensures { Promise report_entry file.now text.old result text.new }
{
    match made {
        Ok(_) => {
            let file = NetworkFile {
                bytes: file,
                net: header(file),
            };
            let routed = Routed { file, tables };
            text_into(&OwnTables { routed }, text)
        }
        Err(refusal) => Err(refusal),
    }
}

// The report on a file's set, from the text's first byte on; or the refusal, and every byte of the text as it came. The tables are made
// in room for those of a small set, where that will do, or else in room for the longest; and before `report_by`, so that its room for a text
// is not yet taken while they are made.
// Rules out: a text cut off where the room ends `a_short_room_written_into`; 14 for a large set in ample room
// `every_set_taken_for_small`; also `lines/lower_end_only`, `detections/hops_with_nothing_down`.
pub fn report(file: &[u8], text: &mut [u8]) -> Result<usize, Refusal>
    ensures { Promise report_entry file.now text.old result text.new }
{
    let net = header(file);
    if net.tables_length() <= FEW_TABLES {
        let mut few = few_tables();
        let made = tables(file, &mut few);
        return report_by(made, file, &few, text);
    }
    let mut all = room::<{ Network::LONGEST_TABLES }>();
    let made = tables(file, &mut all);
    report_by(made, file, &all, text)
}

// ---- what the report program prints

// The line of a refusal.
fn refusal_line(pen: &mut Pen, refusal: Refusal)
    requires { pen.old.at ≡ 0 }
    ensures { Writes pen.old (refusal_line (number_of refusal.rule) refusal.place) refusal_room pen.new }
{
    pen.labelled(b"refused ", usize::from(refusal.rule.number()));
    pen.labelled(b" at ", refusal.place);
    pen.put(b'\n');
}

// The same from the text's first byte on; returns its length.
fn refusal(text: &mut [u8], refusal: Refusal) -> usize
    ensures { Wrote text.old 0 (refusal_line (number_of refusal.rule) refusal.place) refusal_room result text.new }
{
    let mut pen = Pen { text, at: 0 };
    refusal_line(&mut pen, refusal);
    pen.at
}

// The length of the text, where the report was written; else the refusal's line.
fn say(answer: Result<usize, Refusal>, text: &mut [u8]) -> usize
    ensures { Says answer text.old result text.new }
{
    match answer {
        Ok(long) => long,
        Err(refused) => refusal(text, refused),
    }
}

// The report, or the line of the refusal, from the text's first byte on; returns how many bytes it has.
// Rules out: next hop and destination exchanged in a line `lines/columns_swapped`; no text for a refused file.
pub fn print(file: &[u8], text: &mut [u8; Network::LONGEST_REPORT]) -> usize
    ensures { Printed file.now text.old result text.new }
{
    let answer = report(file, text);
    say(answer, text)
}

// The entries by numbers and byte slices, as C and Rust call them (include/burnishpeg.h). Each function promises what its entry does,
// with the answer packed into one word: a refusal's number and place, or the values of an accepted call. The crate `burnishpeg_c`
// exports each under its name.
#![tactic(auto)]

ghost use Rattle.rules.specs.Entries.Lists.{lists};
ghost use Rattle.rules.specs.Entries.Read.{read_entry};
ghost use Rattle.rules.specs.Entries.Write.{write_entry};
ghost use Rattle.rules.specs.Entries.Build.{build_entry};
ghost use Rattle.rules.specs.Entries.Tables.{tables_entry};
ghost use Rattle.rules.specs.Entries.Step.{step_entry};
ghost use Rattle.rules.specs.Entries.Run.{run_entry};
ghost use Rattle.rules.specs.Entries.Report.{report_entry};
ghost use Rattle.answerwords.specs.Words.{failure_of, packet_at, Answers, by_length, by_read, by_step, by_run};

use answerwords::{failure_of, word};
use layout::Lists;
use rules::{Network, Packet};

// ---- the entries

// Rules out: a length that is not that of the file in `out`; a refusal with bit 63 clear
// `answerwords/a_refusal_that_looks_accepted`; also `answerwords/the_number_over_the_place`.
pub fn burnishpeg_build(graph: &[u8], cap: u8, out: &mut [u8]) -> u64
    ensures { Answers build_entry by_length (record { file = graph.now; cap = cap }) out.old result out.new }
{
    word(builder::build(graph, cap, out))
}

// Rules out: `tables` altered by a refused call; a refusal with bit 63 clear `answerwords/a_refusal_that_looks_accepted`; also
// `answerwords/the_number_over_the_place`.
pub fn burnishpeg_tables(file: &[u8], tables: &mut [u8]) -> u64
    ensures { Answers tables_entry by_length file.now tables.old result tables.new }
{
    word(tables::tables(file, tables))
}

// Rules out: 11 for a failed link, and kind 3 taken for one `answerwords/a_link_by_another_kind`; a refusal with bit 63 clear
// `answerwords/a_refusal_that_looks_accepted`; also `answerwords/the_number_over_the_place`,
// `answerwords/a_node_by_its_low_byte`.
pub fn burnishpeg_step(
    file: &[u8],
    tables: &[u8],
    place: u8,
    destination: u8,
    topology: u8,
    failure: u8,
    failed: u16,
) -> u64
    ensures { Answers step_entry by_step (record { file = file.entry.now; tables = tables.now; packet = packet_at place destination topology; failure = failure_of failure failed }) tt result tt }
{
    let down = failure_of(failure, failed);
    let p = Packet {
        place,
        destination,
        topology,
    };
    word(forwarding::step(file, tables, p, down))
}

// Rules out: 11 for a failed link, and kind 3 taken for one `answerwords/a_link_by_another_kind`; a refusal with bit 63 clear
// `answerwords/a_refusal_that_looks_accepted`; also `answerwords/the_number_over_the_place`,
// `answerwords/a_node_by_its_low_byte`.
pub fn burnishpeg_run(
    file: &[u8],
    source: u8,
    destination: u8,
    failure: u8,
    failed: u16,
    tables: &mut [u8],
    trail: &mut [u8],
) -> u64
    ensures { Answers run_entry by_run (record { file = file.entry.now; source = source; destination = destination; failure = failure_of failure failed }) (record { tables = tables.entry.now; trail = trail.old }) result (record { tables = tables.exit.now; trail = trail.new }) }
{
    let down = failure_of(failure, failed);
    word(forwarding::run(file, source, destination, down, tables, trail))
}

// Rules out: n and k exchanged in the answer; a refusal with bit 63 clear `answerwords/a_refusal_that_looks_accepted`; also
// `answerwords/the_number_over_the_place`.
pub fn burnishpeg_read(
    file: &[u8],
    a: &mut [u8],
    b: &mut [u8],
    weights: &mut [u16],
    homes: &mut [u8],
    rows: &mut [u16],
) -> u64
    ensures { Answers read_entry by_read file.now (lists a.old b.old weights.old homes.old rows.old) result (lists a.new b.new weights.new homes.new rows.new) }
{
    word(reader::read(file, a, b, weights, homes, rows))
}

// Rules out: `out` altered by a refused call; a refusal with bit 63 clear `answerwords/a_refusal_that_looks_accepted`; also
// `answerwords/the_number_over_the_place`.
pub fn burnishpeg_write(
    n: u8,
    m: u16,
    k: u8,
    wmax: u16,
    a: &[u8],
    b: &[u8],
    weights: &[u16],
    homes: &[u8],
    rows: &[u16],
    out: &mut [u8],
) -> u64
    ensures { Answers write_entry by_length (record { net = record { n = n; m = m; k = k; wmax = wmax }; lists = lists a.now b.now weights.now homes.now rows.now }) out.old result out.new }
{
    let net = Network::header(n, m, k, wmax);
    let lists = Lists {
        a,
        b,
        weights,
        homes,
        rows,
    };
    word(writer::write(net, lists, out))
}

// ---- the report

// Rules out: 14 where `text` is exactly as long as the report `needs/just_enough_room_refused`; a refusal with bit 63 clear
// `answerwords/a_refusal_that_looks_accepted`; also `answerwords/the_number_over_the_place`, `anyroom/another_room_measured`,
// `anyroom/more_room_than_the_text_refused`.
pub fn burnishpeg_report(file: &[u8], text: &mut [u8]) -> u64
    ensures { Answers report_entry by_length file.now text.old result text.new }
{
    word(report::report(file, text))
}

// What the report programs share: a file's report, or the line of its refusal, written out. It is the text that `report::print` promises;
// what the system does with what is written, no contract can say.
#![tactic(auto)]

use rules::Network;
use std::io;
use std::io::Write;

// The report of a file, or the line of its refusal.
pub fn show<W: Write>(out: &mut W, file: &[u8]) -> io::Result<()> {
    let mut text = rooms::room::<{ Network::LONGEST_REPORT }>();
    let long = report::print(file, &mut text);
    out.write_all(&text[..long])
}

// The report program: one file from standard input; its report, or the line of its refusal, to standard output.
#![tactic(auto)]

use console::read_full;
use rooms::file_and_one;
use std::io;

fn main(rt: HostRuntime) -> io::Result<()> {
    let mut file = file_and_one();
    let long = read_full(&mut rt.stdin(), &mut file)?;
    printer::show(&mut rt.stdout(), &file[..long])
}

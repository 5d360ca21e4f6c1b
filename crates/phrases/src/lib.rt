// What the answer of a case is written in: the library's answers, read from the words that C gets, the lines that show them, and the
// tally of a sweep. Nothing here asks the library: the program `cases` does. Every function can be asked anything, and none promises
// more than that it is safe and ends.
#![tactic(auto)]

pub mod answer; // answer.rt: the library's answers
pub mod show; // show.rt: what is written
pub mod tally; // tally.rt: what a sweep counts

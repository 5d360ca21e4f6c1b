// What the program `trace` is asked, by its arguments, and what it writes, a line for each hop. Nothing here runs a packet: the program
// does. Every function can be called with anything; none promises more than that it is safe and ends.
#![tactic(auto)]

pub mod question; // question.rt: what is asked
pub mod show; // show.rt: the lines

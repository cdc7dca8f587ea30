// What is found of the networks worked by hand, printed. It has no promise: it is compared with the second program's text. All is printed by `io`: `println!`
// rests on two more declared facts of the C library than `read` and `write`, which README.md names as all that is trusted of it.
#![tactic(auto)]

pub mod cases; // cases.rt: the networks of RULES 11.2, and the verdict on each
pub mod networks; // networks.rt: an entry of the table, and what is found of it
mod programs; // programs.rt: what the programs are given, and what they print

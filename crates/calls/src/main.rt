// Calls: reads a call's number and its arguments from standard input, makes the call and prints what it answers. It is an instrument: through it the
// library's calls are compared with the second program, whose README.md says what is read and printed.
#![tactic(auto)]

mod answers; // answers.rt: what is printed
mod arguments; // arguments.rt: the arguments, taken from the input's front
mod buffers; // buffers.rt: route, read, write, build, cable and sheet, with a lent buffer
mod machines; // machines.rt: steps, moves and trace, of the drain machine
mod tables; // tables.rt: entry, walk, row and hop

use arguments::Arguments;
use buffers::Space;

// As much as is read.
const ROOM: usize = 131072;

// Makes the call of that number: none where there is no such call, or these are not its arguments. A match: the number is the input's.
fn call(selector: u8, args: Arguments, space: &mut Space) -> Option<()> {
    match selector {
        0 => tables::entry(args),
        1 => tables::walk(args),
        2 => tables::row(args),
        3 => tables::hop(args),
        4 => buffers::route(args, space),
        5 => buffers::read(args, space),
        6 => buffers::write(args, space),
        7 => buffers::build(args, space),
        8 => machines::steps(args),
        9 => machines::trace(args),
        10 => buffers::cable(args, space),
        11 => buffers::sheet(args, space),
        12 => machines::moves(args),
        _ => None,
    }
}

fn answered(input: &[u8], space: &mut Space) -> Option<()> {
    let (selector, args) = input.split_first()?;
    call(*selector, Arguments::new(args), space)
}

fn main() {
    let mut input = [0u8; ROOM];
    let n = io::read_full(0, &mut input);
    let mut space = io::large_buffer();
    if answered(&input[..n], &mut space).is_none() {
        answers::word(b"bad call\n");
    }
}

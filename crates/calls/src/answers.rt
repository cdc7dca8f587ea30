// What is printed: words, and fields one space apart, each line closed by a line feed. All goes by `io`: `println!` rests on two more declared facts of the C
// library than `read` and `write`, which README.md names as all that is trusted of it.
use format::Entry;
use hops::Hop;
use messages::Answer;
use refusal::Refusal;

pub fn word(w: &[u8]) {
    io::write_all(1, w);
}

// (`as`: the library has no `u64: From<usize>`.)
fn number(n: usize) {
    io::print_decimal(1, n as u64);
}

// A further field: a space, and the number.
pub fn field(n: usize) {
    word(b" ");
    number(n);
}

// A line of a word and a field for each number.
pub fn line<N: Copy + Into<usize>>(name: &[u8], numbers: &[N]) {
    word(name);
    for &n in numbers {
        field(n.into());
    }
    word(b"\n");
}

pub fn refused(r: Refusal) {
    line(b"refused", &[r.number(), r.place()]);
}

// The line of a contents entry.
pub fn entry(found: Option<Entry>) {
    match found {
        Some(e) => line(
            b"entry",
            &[
                usize::from(e.kind),
                usize::from(e.second),
                e.offset,
                e.length,
            ],
        ),
        None => word(b"none\n"),
    }
}

// The line of a row; the empty one is refusal 10.
pub fn row(row: &[u8]) {
    if row.is_empty() {
        refused(Refusal::Unknown(0));
    } else {
        line(b"row", row);
    }
}

// The line of a hop.
pub fn hop(answer: Result<Option<Hop>, Refusal>) {
    match answer {
        Ok(Some(hop)) => line(b"hop", &[hop.node, hop.class]),
        Ok(None) => word(b"none\n"),
        Err(r) => refused(r),
    }
}

// The line of a call that writes.
pub fn written(name: &[u8], answer: Result<usize, Refusal>) {
    match answer {
        Ok(size) => line(name, &[size]),
        Err(r) => refused(r),
    }
}

// The line of a move.
pub fn step(answer: Result<Answer, Refusal>) {
    match answer {
        Ok(Answer::Already) => word(b"already\n"),
        Ok(Answer::Moved) => word(b"moved\n"),
        Ok(Answer::Blocked(by)) => line(b"blocked", &[by]),
        Ok(Answer::Delivered) => word(b"delivered\n"),
        Err(r) => refused(r),
    }
}

// The line of a drain's move: where it looked first, and the message that moved.
pub fn turn(look: usize, message: usize) {
    number(look);
    line(b"", &[message]);
}

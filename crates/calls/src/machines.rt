// Calls of the drain machine: steps, starts on one record with moves of named messages behind each; moves, in a record that no start made; and trace, a drain
// with a line for each move.
ghost use Rattle.std.specs.Prelude.{◌<◌, length, OnSome};

use crate::answers;
use crate::arguments::Arguments;
use messages::{MAX_MESSAGES, NODE_CHANNELS, Record};
use nodes::MAX_NODES;
use refusal::Refusal;

// As many moves as the most messages can make, of fewer hops than nodes and three more each.
const MOST_MOVES: usize = MAX_MESSAGES * (MAX_NODES + 2);

// The messages that are marked, and the line's end.
fn marked(bytes: &[u8]) {
    for (message, byte) in bytes.iter().enumerate() {
        if *byte != 0 {
            answers::field(message);
        }
    }
    answers::word(b"\n");
}

// Each channel that is held, by its two nodes, or by `in` or `out` and its node, with the message that holds it, and the line's end.
fn held(holders: &[u16]) {
    for (channel, holder) in holders.iter().enumerate() {
        if *holder != 0 {
            ends(channel / NODE_CHANNELS, channel % NODE_CHANNELS);
            answers::field(usize::from(*holder - 1));
        }
    }
    answers::word(b"\n");
}

// Channel `end` of a node: to that node, or the injection or the consumption channel.
fn ends(node: usize, end: usize) {
    if end < MAX_NODES {
        answers::field(node);
        answers::field(end);
        return;
    }
    if end == MAX_NODES {
        answers::word(b" in");
    } else {
        answers::word(b" out");
    }
    answers::field(node);
}

// The record: how many messages, how many moves, who is delivered, what is held.
fn state(record: &Record) {
    answers::line(b"record", &[record.messages, record.moves]);
    answers::word(b"delivered");
    marked(&record.delivered);
    answers::word(b"held");
    held(&record.holders);
}

// Numbers of messages, 16 bits each.
fn stepped(record: &mut Record, named: &[u8]) {
    for message in named.chunks_exact(2) {
        let answer = lent::advance(record, format::number_at(message, 0));
        answers::step(answer);
    }
    state(record);
}

// The same by value, so that this form is compared too.
fn moved(mut record: Record, named: &[u8]) {
    for message in named.chunks_exact(2) {
        let moved = lent::moved(record, format::number_at(message, 0));
        record = moved.record;
        answers::step(moved.answer);
    }
    state(&record);
}

// A round: a start's image and list, and the numbers of messages that move behind it.
#[derive(Clone, Copy)]
struct Round<'a> {
    image: &'a [u8],
    list: &'a [u8],
    named: &'a [u8],
}

impl<'a> Round<'a> {
    // The round at the front of what is left.
    fn take(args: &mut Arguments<'a>) -> Option<Round<'a>>
        ensures { OnSome result (length args.new.left.now < length args.old.left.now) }
    {
        let image = args.bytes()?;
        let list = args.bytes()?;
        let named = args.numbers()?;
        Some(Round { image, list, named })
    }
}

// A start on a record, new or used, and the moves behind it; a line for each, and the record after it.
fn played(record: &mut Record, round: Round) {
    match lent::start(record, round.image, round.list) {
        Err(r) => answers::refused(r),
        Ok(()) => answers::word(b"started\n"),
    }
    state(record);
    stepped(record, round.named);
}

// Are these whole rounds, one or more, to the end?
fn whole(mut args: Arguments) -> Option<()> {
    Round::take(&mut args)?;
    while args.end().is_none() {
        Round::take(&mut args)?;
    }
    Some(())
}

// The rounds one after the other, all on one record: what follows the first shows a start on a used record.
pub fn steps(mut args: Arguments) -> Option<()> {
    whole(args)?;
    let mut record = records::blank();
    while let Some(round) = Round::take(&mut args) {
        played(&mut record, round);
    }
    Some(())
}

// Bytes at the front, zeros behind.
fn padded<const N: usize>(bytes: &[u8]) -> [u8; N] {
    let mut array = [0u8; N];
    let size = bytes.len().min(N);
    array[..size].copy_from_slice(&bytes[..size]);
    array
}

// Moves in a record that no start made: N, labels, both tables, a list and classes as they are given, how many messages are named, and their numbers.
pub fn moves(mut args: Arguments) -> Option<()> {
    let nodes = args.number()?;
    let labels = padded(args.bytes()?);
    let free = padded(args.bytes()?);
    let falling = padded(args.bytes()?);
    let list = args.bytes()?;
    let classes = padded(args.bytes()?);
    let named = args.numbers()?;
    args.end()?;
    let mut record = records::begun(nodes, labels, free, falling, list);
    record.classes = classes;
    state(&record);
    moved(record, named);
    Some(())
}

// A line for each turn until every message is delivered, and then the drain's own.
fn turned(mut record: Record, mut seed: u32) {
    for _ in 0..MOST_MOVES {
        if records::all_delivered(record) {
            break;
        }
        let turn = picking::pick(seed, record);
        seed = turn.seed;
        record = turn.record;
        answers::turn(turn.look, turn.message);
    }
    answers::line(b"drained", &[record.messages, record.moves]);
}

// A drain's input, as the program reads it: an image's length in 16 bits, the image, the seed, pairs. Its start is by value, for the same reason.
fn drain(mut input: Arguments) -> Result<(), Refusal> {
    let image = input.short_bytes().ok_or(Refusal::Contents)?;
    let seed = input.double().ok_or(Refusal::Contents)?;
    let started = lent::started(records::blank(), image, input.rest());
    started.verdict?;
    turned(started.record, seed);
    Ok(())
}

pub fn trace(mut args: Arguments) -> Option<()> {
    let input = args.bytes()?;
    args.end()?;
    if let Err(r) = drain(Arguments::new(input)) {
        answers::refused(r);
    }
    Some(())
}

// Drain: reads an image's length, the image, a seed and pairs from standard input, moves the messages until every one is delivered, and prints how many
// messages and successful moves there were, or the line of a refusal.
#![tactic(auto)]

// What stands behind the first 65,536 bytes is not read.
// The five programs share these lines: a public function that takes the call would have a `requires` (RULES 12.2), a trait wants a type and an impl for each.
fn main() {
    let mut input = io::large_buffer();
    let n = io::read_full(0, &mut input);
    let mut out = [0u8; drained::LONGEST];
    let written = drained::output(&input[..n], &mut out);
    lines::say(written, &out);
}

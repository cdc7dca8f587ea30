// Build: reads a links image from standard input, and writes its full image, or the line of its refusal.
#![tactic(auto)]

// An input that fills the buffer is over 65,535 bytes, and is refused as such.
// The five programs share these lines: a public function that takes the call would have a `requires` (RULES 12.2), a trait wants a type and an impl for each.
fn main() {
    let mut input = io::large_buffer();
    let n = io::read_full(0, &mut input);
    let mut out = [0u8; built::LONGEST];
    let written = built::output(&input[..n], &mut out);
    lines::say(written, &out);
}

// What Drain prints: of an image's length, the image, a seed and pairs the line that says how many messages and successful moves there were once
// every message is delivered, or the line of a refusal.
#![tactic(auto)]

ghost use Rattle.std.specs.Prelude.{◌≡◌, ◌+◌, ◌*◌, ◌≤◌, ◌<◌, length};
ghost use Rattle.format.specs.Limits.{half_word};
ghost use Rattle.format.specs.Contents.{number_at};
ghost use Rattle.results.specs.Written.{Writes, room_for};
ghost use Rattle.drained.specs.Drains.{input_fault, drained_line, end_in, longest_drain, output_of};

use laid::Page;
use refusal::Refusal;

// How much it prints at the most.
pub const LONGEST: usize = 7 + 2 * (1 + 21) + 1;

// The seed in four bytes from place `at` on, low byte first.
fn seed_at(input: &[u8], at: usize) -> u32
    requires { at + 4 ≤ length input.now }
    ensures { result ≡ number_at input.now at + half_word * number_at input.now (at + 2) }
{
    u32::from_le_bytes([input[at], input[at + 1], input[at + 2], input[at + 3]])
}

// The line of the drain that the input asks for, or its first fault.
fn drain(input: &[u8], out: &mut [u8]) -> Result<usize, Refusal>
    requires { longest_drain ≤ length out.old }
    ensures { Writes (input_fault input.now) (drained_line (end_in input.now)) out.old result out.new }
{
    let end = 2 + format::number_at(input, 0);
    let list = end + 4;
    if input.len() < list {
        return Err(Refusal::Contents);
    }
    let seed = seed_at(input, end);
    let drained = draining::drain(records::blank(), &input[2..end], &input[list..], seed);
    drained.verdict?;
    let last = drained.record;
    let mut page = Page::new(out);
    lines::line(&mut page, b"drained", &[last.messages, last.moves]);
    Ok(page.at)
}

// What is printed for this input, or 9 and nothing printed where the longest finds no room.
// What a function that takes the call must say of it, by `F.post`, is longer than these lines that stand in each program.
pub fn output(input: &[u8], out: &mut [u8]) -> Result<usize, Refusal>
    ensures { Writes (room_for longest_drain out.old) (output_of input.now) out.old result out.new }
{
    if out.len() < LONGEST {
        return Err(Refusal::Short);
    }
    let written = drain(input, out);
    lines::told(written, out)
}

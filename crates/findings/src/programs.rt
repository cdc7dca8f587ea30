// What the programs are given, and what they print.
use laid::Page;
use refusal::Refusal;

// More than any input and any line here takes.
pub const ROOM: usize = 2048;

// Prints what is written into a lent buffer, which has room for the longest.
pub(crate) fn say<F: FnOnce(&mut [u8]) -> Result<usize, Refusal>>(out: &mut [u8], write: F)
    requires { F.IsAlwaysCallable write }
{
    let written = write(out);
    lines::say(written, out);
}

// What Show prints for this image.
pub fn say_shown(image: &[u8]) {
    say(&mut [0; shown::LONGEST], |out| shown::output(image, out));
}

// RULES 10.4: "an image's length (16 bits, low byte first), the image, a seed of 32 bits (low byte first) and pairs", for seed 0. (`as`: 16 bits are left of the length.)
fn for_drain(image: &[u8], messages: &[u8], out: &mut Page<'_>) {
    let size = (image.len() % format::HALF_WORD) as u16;
    out.put(&size.to_le_bytes());
    out.put(image);
    out.put(&[0; 4]);
    out.put(messages);
}

// Prints what Drain prints for this image, seed 0 and these messages.
pub fn tell_drained(image: &[u8], messages: &[u8]) {
    let mut buffer = [0u8; ROOM];
    let mut input = Page::new(&mut buffer);
    for_drain(image, messages, &mut input);
    let input = input.laid();
    say(
        &mut [0; drained::LONGEST],
        |out| drained::output(input, out),
    );
}

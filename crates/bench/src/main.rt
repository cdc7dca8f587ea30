// Bench: repeats one piece of work inside one process, and prints the last answer's number. Input: the work (0 builds, 1 drains), the number of repeats
// (32 bits, low byte first); for builds a links image; for drains an image's length (16 bits, low byte first), the image, and pairs.
#![tactic(auto)]

// Builds so many times, into room that differs by a byte from one to the next, and answers how many bytes the last one wrote, 0 where none were.
fn builds(links: &[u8], repeats: u32) -> usize {
    let mut buffer = [0u8; image::LONGEST + 1];
    let mut last = 0;
    // `as`: the library has no `usize: From<u32>`.
    for i in 0..repeats {
        let room = image::LONGEST + (i % 2) as usize;
        last = writing::build(links, &mut buffer[..room]).unwrap_or(0);
    }
    last
}

// Drains so many times, each with its own number as the seed, and answers the moves of the last one.
fn drains(image: &[u8], list: &[u8], repeats: u32) -> usize {
    let mut last = records::blank();
    // By number: it is the seed.
    for seed in 0..repeats {
        last = draining::drain(last, image, list, seed).record;
    }
    last.moves
}

// The answer of the work that an input asks for; none where it is too short.
fn answer(input: &[u8]) -> Option<usize> {
    let (work, rest) = input.split_first()?;
    let (repeats, rest) = rest.split_first_chunk()?;
    let repeats = u32::from_le_bytes(*repeats);
    if *work != 1 {
        return Some(builds(rest, repeats));
    }
    let (size, rest) = rest.split_first_chunk()?;
    let size = u16::from_le_bytes(*size);
    let (image, list) = rest.split_at_checked(usize::from(size))?;
    Some(drains(image, list, repeats))
}

fn main() {
    let mut input = io::large_buffer();
    let n = io::read_full(0, &mut input);
    let last = answer(&input[..n]).unwrap_or(0);
    io::print_decimal(1, last as u64); // `as`: the library has no `u64: From<usize>`
    io::write_all(1, b"\n");
}

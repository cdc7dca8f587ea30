// The layout of an image: contents entries, and bodies that follow them without a gap.
#![tactic(auto)]

ghost use Rattle.std.specs.Prelude.{◌≡◌, ◌≤◌, ◌<◌, take, drop};
ghost use Rattle.format.specs.Limits.{half_word};
ghost use Rattle.format.specs.Contents.{number_at, entry_of, body_start, nodes_in, zero_in, pairs_in};
ghost use Rattle.format.specs.Bytes.{low_high, entry_bytes, body_at};

// The number of kinds of a links image, and of a full one.
pub const LINKS: usize = 1;

pub const FULL: usize = 4;

// RULES 6.1: "No image is longer than 65,535 bytes."
pub const MAX_IMAGE: usize = 65535;

// How many numbers there are of 16 bits.
pub const HALF_WORD: usize = 65536;

// A contents entry as stored.
#[derive(Clone, Copy)]
pub struct Entry {
    pub kind: u8,
    pub second: u8,
    pub offset: usize,
    pub length: usize,
}

// The number in two bytes from place i on, low byte first.
pub fn number_at(image: &[u8], i: usize) -> usize
    ensures number { result ≡ number_at image.now i }
    ensures low { result < half_word }
{
    if image.len() <= i {
        return 0;
    }
    usize::from(u16::from_le_bytes([image[i], slices::byte(image, i + 1)]))
}

// The entry of that number, where the image has one.
pub fn entry_at(image: &[u8], number: usize) -> Option<Entry>
    ensures { result ≡ entry_of image.now number }
{
    let entries = usize::from(slices::byte(image, 1));
    if entries <= number {
        return None;
    }
    let at = 6 * number;
    if image.len() < 8 + at {
        return None;
    }
    Some(Entry {
        kind: image[2 + at],
        second: image[3 + at],
        offset: number_at(image, 4 + at),
        length: number_at(image, 6 + at),
    })
}

// The low 16 bits of a number, low byte first. (`as`: that many are left.)
fn low_high(x: usize) -> [u8; 2]
    ensures { result ≡ low_high x }
{
    ((x % HALF_WORD) as u16).to_le_bytes()
}

// An entry as it is written: kind, zero, offset and length, low byte first.
pub fn entry_bytes(kind: u8, offset: usize, size: usize) -> [u8; 6]
    ensures { result ≡ entry_bytes kind offset size }
{
    let offset = low_high(offset);
    let size = low_high(size);
    [kind, 0, offset[0], offset[1], size[0], size[1]]
}

// Where the body of kind 1 begins.
fn body_start(image: &[u8]) -> usize
    ensures starts { result ≡ body_start image.now }
    ensures low { result ≤ 1532 }
{
    2 + 6 * usize::from(slices::byte(image, 1))
}

// N of the cabling that kind 1 holds, as stored.
pub fn nodes_in(image: &[u8]) -> usize
    ensures { result ≡ nodes_in image.now }
{
    usize::from(slices::byte(image, body_start(image)))
}

// The byte after N, as stored.
pub fn zero_in(image: &[u8]) -> usize
    ensures { result ≡ zero_in image.now }
{
    usize::from(slices::byte(image, body_start(image) + 1))
}

// At most `size` bytes from place `from` on.
fn part(image: &[u8], from: usize, size: usize) -> &[u8]
    ensures { result.now ≡ take size (drop from image.now) }
{
    slices::front(slices::rest(image, from), size)
}

// The pairs of the cabling that kind 1 holds.
pub fn pairs_in(image: &[u8]) -> &[u8]
    ensures { result.now ≡ pairs_in image.now }
{
    let size = number_at(image, 6).saturating_sub(2);
    part(image, body_start(image) + 2, size)
}

// The body of entry i.
pub fn body_at(image: &[u8], i: usize) -> &[u8]
    ensures { result.now ≡ body_at image.now i }
{
    if image.len() / 6 <= i {
        return &[];
    }
    let at = 6 * i;
    let offset = number_at(image, 4 + at);
    let size = number_at(image, 6 + at);
    part(image, offset, size)
}

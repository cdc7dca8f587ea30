// The contents of an image, walked by a reader. The work is in `step_at`, which keeps no reference; the reader's `new` and `step` are thin (RULES 12.1).
#![tactic(auto)]

ghost use Rattle.std.specs.Prelude.{◌≡◌, ◌+◌, ◌≤◌, ◌↔◌, IsTrue};
ghost use Rattle.format.specs.Contents.{in_order};
ghost use Rattle.contents.specs.Walking.{standing, found_at, step_from};

use format::{Entry, MAX_IMAGE};

// RULES 6.3: "a reader that keeps the caller's image and the number of the next entry"
#[derive(Clone, Copy)]
pub struct Reader<'a> {
    pub image: &'a [u8],
    pub next: usize,
}

// What a step finds: the entry, where there is one, and the number of the next one.
#[derive(Clone, Copy)]
pub struct Found {
    pub entry: Option<Entry>,
    pub next: usize,
}

// A step from a number on.
pub fn step_at(image: &[u8], number: usize) -> Found
    ensures { result ≡ found_at image.now number }
{
    let entry = format::entry_at(image, number);
    let next = match entry {
        Some(_) => number + 1,
        None => number,
    };
    Found { entry, next }
}

// No `Iterator`: RULES 12.1 names the reader's form, and `step_from` says in one equation what a step answers and leaves.
impl<'a> Reader<'a> {
    // RULES 6.3: "a new reader stands at 0"
    pub fn new(image: &'a [u8]) -> Reader<'a>
        ensures { result ≡ standing image.entry 0 }
    {
        Reader { image, next: 0 }
    }

    // RULES 6.3: "A step answers that entry's kind, second byte, offset and length as they are stored, and goes on by one."
    pub fn step(&mut self) -> Option<Entry>
        ensures { (result, self.new) ≡ step_from self.old }
    {
        let found = step_at(self.image, self.next);
        self.next = found.next;
        found.entry
    }
}

// Is the entry of kind i + 1, its second byte zero, and its offset `begin`?
fn entry_fits(entry: Entry, i: usize, begin: usize) -> bool
    requires { i ≤ 255 }
    ensures { IsTrue result ↔ (entry.kind ≡ i + 1) × (entry.second ≡ 0) × (entry.offset ≡ begin) }
{
    usize::from(entry.kind) == i + 1 && entry.second == 0 && entry.offset == begin
}

// Are the contents those of an image with kinds 1, .., k? They are walked by the reader.
pub fn in_order(image: &[u8], k: usize) -> bool
    ensures { result ≡ in_order image.now k }
{
    if MAX_IMAGE < image.len() {
        return false;
    }
    if slices::byte(image, 0) != 1 || usize::from(slices::byte(image, 1)) != k {
        return false;
    }
    let mut reader = Reader::new(image);
    let mut begin = 2 + 6 * k;
    // By number: the entry that is due is of kind i + 1.
    for i in 0..k {
        let Some(entry) = reader.step() else {
            return false;
        };
        if !entry_fits(entry, i, begin) {
            return false;
        }
        begin += entry.length;
    }
    begin == image.len() && 2 <= format::number_at(image, 6)
}

// Bytes laid one behind the other into a lent buffer.
#![tactic(auto)]

ghost use Rattle.std.specs.Prelude.{◌≡◌, [], ◌∷◌, take};
ghost use Rattle.laid.specs.Laid.{page, behind};
ghost use Rattle.laid.specs.Lent.{page_of};

// A lent buffer, and the place up to which it is laid.
#[derive(Drop)]
pub struct Page<'a> {
    pub bytes: &'a mut [u8],
    pub at: usize,
}

impl<'a> Page<'a> {
    // Nothing is laid yet.
    pub fn new(bytes: &'a mut [u8]) -> Page<'a>
        ensures same_buffer { result.bytes.ghost_name ≡ bytes.entry.ghost_name }
        ensures blank { page_of result ≡ page bytes.old 0 }
    {
        Page { bytes, at: 0 }
    }

    // The bytes behind what is laid; nothing where they find no room.
    pub fn put(&mut self, bytes: &[u8])
        ensures same_buffer { self.new.bytes.ghost_name ≡ self.old.bytes.ghost_name }
        ensures laid { page_of self.new ≡ behind (page_of self.old) bytes.now }
    {
        if self.bytes.len() < self.at || self.bytes.len() - self.at < bytes.len() {
            return;
        }
        let end = self.at + bytes.len();
        self.bytes[self.at..end].copy_from_slice(bytes);
        self.at = end;
    }

    // One byte.
    pub fn byte(&mut self, b: u8)
        ensures same_buffer { self.new.bytes.ghost_name ≡ self.old.bytes.ghost_name }
        ensures laid { page_of self.new ≡ behind (page_of self.old) (b ∷ []) }
    {
        if self.at < self.bytes.len() {
            self.bytes[self.at] = b;
            self.at += 1;
        }
    }

    // What is laid.
    pub fn laid(&self) -> &[u8]
        ensures { result.now ≡ take self.now.at self.now.bytes.now }
    {
        &self.bytes[..self.at.min(self.bytes.len())]
    }
}

// Arguments, taken one by one from the front of what is left of the input: none where one is missing, or bytes are left behind the last.
ghost use Rattle.std.specs.Prelude.{◌+◌, ◌<◌, ◌≤◌, length, OnSome};

#[derive(Clone, Copy)]
pub struct Arguments<'a> {
    left: &'a [u8],
}

impl<'a> Arguments<'a> {
    pub fn new(left: &'a [u8]) -> Arguments<'a> {
        Arguments { left }
    }

    // So many bytes.
    fn front(&mut self, size: usize) -> Option<&'a [u8]>
        ensures { OnSome result (length self.new.left.now ≤ length self.old.left.now) }
    {
        let (front, left) = self.left.split_at_checked(size)?;
        self.left = left;
        Some(front)
    }

    // As many bytes as the array holds.
    fn array<const N: usize>(&mut self) -> Option<[u8; N]>
        ensures { OnSome result (length self.new.left.now + N ≤ length self.old.left.now) }
    {
        let (array, left) = self.left.split_first_chunk()?;
        self.left = left;
        Some(*array)
    }

    // A number of 16 bits, low byte first, as it is and to reckon with.
    pub fn half(&mut self) -> Option<u16>
        ensures { OnSome result (length self.new.left.now < length self.old.left.now) }
    {
        Some(u16::from_le_bytes(self.array()?))
    }

    pub fn number(&mut self) -> Option<usize>
        ensures { OnSome result (length self.new.left.now < length self.old.left.now) }
    {
        Some(usize::from(self.half()?))
    }

    // A number of 32 bits, low byte first.
    pub fn double(&mut self) -> Option<u32>
        ensures { OnSome result (length self.new.left.now < length self.old.left.now) }
    {
        Some(u32::from_le_bytes(self.array()?))
    }

    // A number of 64 bits, low byte first. (`as`, here and below: the library has no `usize: From` of it.)
    pub fn long(&mut self) -> Option<usize> {
        Some(u64::from_le_bytes(self.array()?) as usize)
    }

    // Bytes that say their length first. A length has 32 bits, since RULES 9.1 speaks of images over 65,535 bytes; what is read holds 131,072.
    pub fn bytes(&mut self) -> Option<&'a [u8]>
        ensures { OnSome result (length self.new.left.now < length self.old.left.now) }
    {
        let size = self.double()?;
        self.front(size as usize)
    }

    // Bytes whose length has 16 bits.
    pub fn short_bytes(&mut self) -> Option<&'a [u8]> {
        let size = self.number()?;
        self.front(size)
    }

    // The bytes of numbers of 16 bits that say first how many they are.
    pub fn numbers(&mut self) -> Option<&'a [u8]>
        ensures { OnSome result (length self.new.left.now < length self.old.left.now) }
    {
        let count = self.half()?;
        self.front(2 * usize::from(count))
    }

    // All that is left.
    pub fn rest(self) -> &'a [u8] {
        self.left
    }

    // Nothing is left.
    pub fn end(self) -> Option<()> {
        if self.left.is_empty() { Some(()) } else { None }
    }
}

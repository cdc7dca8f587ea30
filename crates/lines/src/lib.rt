// Lines that programs print: a word or a number, further numbers one space apart, a line feed; and how a program writes what it has laid.
#![tactic(auto)]

ghost use Rattle.std.specs.Prelude.{◌≡◌, ℕ, map};
ghost use Rattle.laid.specs.Lent.{page_of};
ghost use Rattle.results.specs.Written.{Writes, room_for};
ghost use Rattle.text.specs.Text.{decimal_of};
ghost use Rattle.lines.specs.Lines.{with_field, with_fields, with_rest, with_line, refusal_line, longest_refusal, Told, ConvertsBy};

use laid::Page;
use refusal::Refusal;

// How long the line of a refusal is at the most.
pub const LONGEST_REFUSAL: usize = 7 + 2 * (1 + 21) + 1;

// A further field: a space, and the number. No Display: what is promised is each byte that is laid, of which Display says nothing.
pub fn field(out: &mut Page<'_>, n: usize)
    ensures same_buffer { out.new.bytes.ghost_name ≡ out.old.bytes.ghost_name }
    ensures laid { page_of out.new ≡ with_field (page_of out.old) n }
{
    out.byte(b' ');
    text::number(out, n);
}

// A further field for each number.
pub fn fields<T: Copy + Into<usize>>(out: &mut Page<'_>, numbers: &[T])
    ensures same_buffer { out.new.bytes.ghost_name ≡ out.old.bytes.ghost_name }
    ensures laid { (n : T → ℕ) → ConvertsBy T.converts n → page_of out.new ≡ with_fields (page_of out.old) (map n numbers.now) }
{
    for &x in numbers {
        field(out, x.into());
    }
}

// The rest of a line behind what it begins with: a field for each number, and a line feed.
pub fn rest<T: Copy + Into<usize>>(out: &mut Page<'_>, numbers: &[T])
    ensures same_buffer { out.new.bytes.ghost_name ≡ out.old.bytes.ghost_name }
    ensures laid { (n : T → ℕ) → ConvertsBy T.converts n → page_of out.new ≡ with_rest (page_of out.old) (map n numbers.now) }
{
    fields(out, numbers);
    out.byte(b'\n');
}

// A line: a word, a field for each number, and a line feed.
pub fn line(out: &mut Page<'_>, first: &[u8], numbers: &[usize])
    ensures same_buffer { out.new.bytes.ghost_name ≡ out.old.bytes.ghost_name }
    ensures laid { page_of out.new ≡ with_line (page_of out.old) first.now numbers.now }
{
    out.put(first);
    rest(out, numbers);
}

// A line that begins with a number. (A trait for the two beginnings would be longer than both functions.)
pub fn number_line<T: Copy + Into<usize>>(out: &mut Page<'_>, first: usize, numbers: &[T])
    ensures same_buffer { out.new.bytes.ghost_name ≡ out.old.bytes.ghost_name }
    ensures laid { (n : T → ℕ) → ConvertsBy T.converts n → page_of out.new ≡ with_line (page_of out.old) (decimal_of first) (map n numbers.now) }
{
    text::number(out, first);
    rest(out, numbers);
}

// The line that a refusal prints, or 9 and nothing written where the longest such line finds no room.
pub fn refusal_line(r: Refusal, buffer: &mut [u8]) -> Result<usize, Refusal>
    ensures { Writes (room_for longest_refusal buffer.old) (refusal_line r) buffer.old result buffer.new }
{
    if buffer.len() < LONGEST_REFUSAL {
        return Err(Refusal::Short);
    }
    let numbers = [r.number(), r.place()];
    let mut out = Page::new(buffer);
    line(&mut out, b"refused", &numbers);
    Ok(out.at)
}

// What a call has written, or in its place the line of its refusal. (`or_else` of the library does not say what its closure leaves in `out`.)
pub fn told(written: Result<usize, Refusal>, out: &mut [u8]) -> Result<usize, Refusal>
    ensures { Told written out.old result out.new }
{
    match written {
        Err(r) => refusal_line(r, out),
        Ok(m) => Ok(m),
    }
}

// Writes to standard output what stands at the front of `out`; nothing where nothing was written.
pub fn say(written: Result<usize, Refusal>, out: &[u8]) {
    if let Some(bytes) = written.ok().and_then(|m| out.get(..m)) {
        io::write_all(1, bytes);
    }
}

// Lines of numbers, read from the front of a text: its numbers are read, printed as a line, and compared with it.
#![tactic(auto)]

ghost use Rattle.std.specs.Prelude.{◌≡◌, [], ◌∷◌};
ghost use Rattle.read_lines.specs.Numbers.{found_of, one_in, two_in};

use laid::Page;

// A line of numbers that a text begins with: how many bytes it has, and its numbers.
#[derive(Clone, Copy)]
pub struct FirstLine {
    pub size: usize,
    pub first: usize,
    pub second: usize,
}

// The line of these numbers, as it is printed, where both are bytes and the text begins with it.
fn found(s: &[u8], line: &[u8], first: usize, second: usize) -> Option<FirstLine>
    ensures { result ≡ found_of first second line.now s.now }
{
    if first > 255 || second > 255 || !s.starts_with(line) {
        return None;
    }
    Some(FirstLine {
        size: line.len(),
        first,
        second,
    })
}

// A line of one number; its second is 0, as `one_in` says. (One function for both lines would ask how many numbers there are before each second step.)
pub fn one(s: &[u8]) -> Option<FirstLine>
    ensures { result ≡ one_in s.now }
{
    let n = text::number_in(s);
    let mut line = [0u8; 4]; // three digits and a line feed
    let mut out = Page::new(&mut line);
    text::number(&mut out, n);
    out.byte(b'\n');
    found(s, out.laid(), n, 0)
}

// A line of two numbers.
pub fn two(s: &[u8]) -> Option<FirstLine>
    ensures { result ≡ two_in s.now }
{
    let a = text::number_in(s);
    let mut line = [0u8; 8]; // two numbers of three digits, a space and a line feed
    let mut out = Page::new(&mut line);
    text::number(&mut out, a);
    // the second number stands in the text where it is laid in the line
    out.put(b" ");
    let b = text::number_in(slices::rest(s, out.at));
    text::number(&mut out, b);
    out.byte(b'\n');
    found(s, out.laid(), a, b)
}

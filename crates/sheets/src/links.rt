// The lines of links of a sheet: whether each is one, and the pairs that they tell.
ghost use Rattle.std.specs.Prelude.{◌≡◌, List, ℕ, ◌%◌, length};
ghost use Rattle.laid.specs.Laid.{page};
ghost use Rattle.laid.specs.Lent.{page_of};
ghost use Rattle.read_lines.specs.Lines.{lines_of};
ghost use Rattle.sheets.specs.Held.{Holds};

use laid::Page;
use refusal::Refusal;

// Reads the lines of links, and lays their pairs on a page as long as it has room; 12 at the first bad line, where line 1 is the first.
pub(crate) fn read(s: &[u8], pairs: &mut Page<'_>) -> Result<(), Refusal>
    ensures same_buffer { pairs.new.bytes.ghost_name ≡ pairs.old.bytes.ghost_name }
    ensures holds { (b : List ℕ) → page_of pairs.old ≡ page b 0 → length b % 2 ≡ 0 → Holds (lines_of s.now) b result (page_of pairs.new) }
{
    let mut left = s;
    let mut i = 1;
    while !left.is_empty() {
        let Some(line) = read_lines::two(left) else {
            return Err(Refusal::Line(i));
        };
        // `as`: both numbers are bytes, and `try_from` would have an error that never comes.
        pairs.put(&[line.first as u8, line.second as u8]);
        left = slices::rest(left, line.size);
        i += 1;
    }
    Ok(())
}

// What Cable and Sheet write: of a sheet its links image, and of a links image its sheet, or the line of the refusal.
#![tactic(auto)]

ghost use Rattle.results.specs.Written.{Writes, room_for};
ghost use Rattle.image.specs.Longest.{longest_links};
ghost use Rattle.sheets.specs.Sheet.{longest_sheet};
ghost use Rattle.sheeted.specs.Prints.{cable_output, sheet_output};

use refusal::Refusal;

// How much they write at the most.
pub const LONGEST_CABLE: usize = image::LONGEST_LINKS;

pub const LONGEST_SHEET: usize = sheets::LONGEST;

// What Cable writes for this input, or 9 and nothing written where the longest finds no room.
pub fn cable(input: &[u8], out: &mut [u8]) -> Result<usize, Refusal>
    ensures { Writes (room_for longest_links out.old) (cable_output input.now) out.old result out.new }
{
    if out.len() < LONGEST_CABLE {
        return Err(Refusal::Short);
    }
    let written = sheets::cable(input, out);
    lines::told(written, out)
}

// What Sheet writes for this input. What a function that takes the call must say of it, by `F.post`, is longer than the three lines that stand twice.
pub fn sheet(input: &[u8], out: &mut [u8]) -> Result<usize, Refusal>
    ensures { Writes (room_for longest_sheet out.old) (sheet_output input.now) out.old result out.new }
{
    if out.len() < LONGEST_SHEET {
        return Err(Refusal::Short);
    }
    let written = sheets::sheet(input, out);
    lines::told(written, out)
}

// The calls cable and sheet: the links image of a sheet, and the sheet of a links image, in lent buffers.
#![tactic(auto)]

ghost use Rattle.std.specs.Prelude.{◌≡◌};
ghost use Rattle.cabling.specs.Cabling.{cabled};
ghost use Rattle.laid.specs.Lent.{page_of};
ghost use Rattle.sheets.specs.Promises.{Cables, Sheets};
ghost use Rattle.sheets.specs.Held.{with_sheet};

mod links; // links.rt: the lines of links, read

use cabling::Cabling;
use laid::Page;
use nodes::MAX_LINKS;
use refusal::Refusal;

// The digits of N at the most.
const NODE_DIGITS: usize = 2;

// RULES 6.5: "A sheet has at most 3,075 bytes.": a line of N, and for each link one of two numbers.
pub const LONGEST: usize = NODE_DIGITS + 1 + MAX_LINKS * (NODE_DIGITS + 1 + NODE_DIGITS + 1);

// Of a sheet's pairs one more is held than a cabling may have; those behind it change nothing.
const HELD: usize = 2 * MAX_LINKS + 2;

// Writes the links image of a sheet, under the checks 12, 2 to 7 and 9.
pub fn cable(sheet: &[u8], buffer: &mut [u8]) -> Result<usize, Refusal>
    ensures { Cables sheet.now buffer.old result buffer.new }
{
    let Some(head) = read_lines::one(sheet) else {
        return Err(Refusal::Line(0));
    };
    let mut held = [0u8; HELD];
    let mut pairs = Page::new(&mut held);
    links::read(slices::rest(sheet, head.size), &mut pairs)?;
    let cabling = Cabling {
        nodes: head.first,
        pairs: pairs.laid(),
    };
    writing::write(&cabling, false, buffer)
}

// The lines of a cabling, laid behind what is there.
fn print(cabling: &Cabling, out: &mut Page<'_>)
    ensures same_buffer { out.new.bytes.ghost_name ≡ out.old.bytes.ghost_name }
    ensures laid { page_of out.new ≡ with_sheet (page_of out.old) (cabled cabling.now.nodes cabling.now.pairs.now) }
{
    lines::number_line::<u8>(out, cabling.nodes, &[]);
    let mut left = cabling.pairs;
    while let [a, b, rest @ ..] = left {
        lines::number_line(out, usize::from(*a), &[*b]);
        left = rest;
    }
}

// Writes the sheet of a links image, under the checks 1 to 7 and 9.
pub fn sheet(image: &[u8], buffer: &mut [u8]) -> Result<usize, Refusal>
    ensures { Sheets image.now buffer.old result buffer.new }
{
    image::links_verdict(image)?;
    let mut text = [0u8; LONGEST];
    let mut out = Page::new(&mut text);
    print(&image::cabling_in(image), &mut out);
    results::place(out.laid(), buffer)
}

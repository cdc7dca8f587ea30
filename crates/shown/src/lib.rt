// What Show prints: of an image, links only or full, its fabric's line and a line for each node, or the line of its refusal.
#![tactic(auto)]

ghost use Rattle.std.specs.Prelude.{◌≡◌, List, ℕ, ◌∷◌, ◌≤◌, length};
ghost use Rattle.cabling.specs.Cabling.{cabled, Good};
ghost use Rattle.fabric.specs.Fabric.{fabric_of};
ghost use Rattle.laid.specs.Laid.{page};
ghost use Rattle.laid.specs.Lays.{Lays};
ghost use Rattle.laid.specs.Lent.{page_of};
ghost use Rattle.refusal.specs.declared.Refusal.{Refusal};
ghost use Rattle.image.specs.Image.{cabling_in};
ghost use Rattle.image.specs.Faults.{image_fault};
ghost use Rattle.text.specs.Text.{decimal_of};
ghost use Rattle.lines.specs.Lines.{with_line};
ghost use Rattle.results.specs.Written.{Writes, room_for};
ghost use Rattle.shown.specs.Shows.{fabric_word, fabric_fields, report_of, longest_show, output_of};

use fabric::Fabric;
use laid::Page;
use nodes::MAX_NODES;
use refusal::Refusal;

// The bytes of the first line at the most, and of a node's.
const FABRIC_LINE: usize = 6 + 4 * (1 + 21) + 1;

const NODE_LINE: usize = 2 + (1 + MAX_NODES) * (1 + 3) + 1;

// How much it prints at the most.
pub const LONGEST: usize = FABRIC_LINE + MAX_NODES * NODE_LINE;

// The first line.
fn fabric_line(f: &Fabric, pairs: &[u8], out: &mut Page<'_>)
    requires good { Good (cabled f.now.nodes pairs.now) }
    requires made { f.now ≡ fabric_of (cabled f.now.nodes pairs.now) }
    ensures same_buffer { out.new.bytes.ghost_name ≡ out.old.bytes.ghost_name }
    ensures laid { page_of out.new ≡ with_line (page_of out.old) fabric_word (fabric_fields (cabled f.now.nodes pairs.now)) }
{
    let t = network::table_of(pairs);
    let total = turns::total(&t);
    let prohibited = turns::prohibited(&t, &f.labels);
    let numbers = [f.nodes, pairs.len() / 2, total, prohibited];
    lines::line(out, b"fabric", &numbers);
}

// A node's line behind the others.
fn node_line(out: &mut Page<'_>, v: usize, label: usize, row: &[u8])
    ensures same_buffer { out.new.bytes.ghost_name ≡ out.old.bytes.ghost_name }
    ensures laid { page_of out.new ≡ with_line (page_of out.old) (decimal_of v) (label ∷ row.now) }
{
    text::number(out, v);
    lines::field(out, label);
    lines::rest(out, row);
}

// What is printed of a fabric.
fn report(f: &Fabric, pairs: &[u8], out: &mut Page<'_>)
    requires good { Good (cabled f.now.nodes pairs.now) }
    requires made { f.now ≡ fabric_of (cabled f.now.nodes pairs.now) }
    ensures same_buffer { out.new.bytes.ghost_name ≡ out.old.bytes.ghost_name }
    ensures laid { (b : List ℕ) → page_of out.old ≡ page b 0 → longest_show ≤ length b → Lays b (page_of out.new) (report_of (cabled f.now.nodes pairs.now)) }
{
    let n = f.nodes;
    let size = n * n;
    fabric_line(f, pairs, out);
    // By number: v is the node that is printed.
    for v in 0..n {
        let row = hops::row(
            slices::front(&f.free, size),
            slices::front(&f.falling, size),
            n,
            v,
            0,
        );
        node_line(out, v, usize::from(slices::byte(&f.labels, v)), row);
    }
}

// The report on an image, or its first fault.
fn report_on(image: &[u8], out: &mut [u8]) -> Result<usize, Refusal>
    requires { longest_show ≤ length out.old }
    ensures writes { Writes (image_fault image.now) (report_of (cabling_in image.now)) out.old result out.new }
    ensures refused { (r : Refusal) → result ≡ Err r → image_fault image.now ≡ Err r }
{
    let f = image::open(image)?;
    let mut page = Page::new(out);
    report(&f, format::pairs_in(image), &mut page);
    Ok(page.at)
}

// What is printed for this input, or 9 and nothing printed where the longest finds no room.
// What a function that takes the call must say of it, by `F.post`, is longer than these lines that stand in each program.
pub fn output(input: &[u8], out: &mut [u8]) -> Result<usize, Refusal>
    ensures { Writes (room_for longest_show out.old) (output_of input.now) out.old result out.new }
{
    if out.len() < LONGEST {
        return Err(Refusal::Short);
    }
    let written = report_on(input, out);
    lines::told(written, out)
}

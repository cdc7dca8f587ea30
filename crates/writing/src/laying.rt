// The bytes of an image, laid in a lent buffer piece by piece. Their number is known before the first is written.
// Each cast keeps its number, as is proved; `try_from` would bring a refusal that no rule knows.
ghost use Rattle.std.specs.Prelude.{◌≡◌, ◌≤◌, length};
ghost use Rattle.nodes.specs.Limits.{max_nodes};
ghost use Rattle.cabling.specs.Cabling.{cabled, Good};
ghost use Rattle.fabric.specs.Fabric.{fabric_of};
ghost use Rattle.format.specs.Contents.{links_kinds, full_kinds};
ghost use Rattle.laid.specs.Lays.{LaysFrom};
ghost use Rattle.laid.specs.Lent.{page_of};
ghost use Rattle.results.specs.Written.{Writes};
ghost use Rattle.image.specs.Image.{image_of};
ghost use Rattle.writing.specs.Laying.{head_of, front_of};

use cabling::Cabling;
use fabric::Fabric;
use laid::Page;
use refusal::Refusal;

// The contents of an image whose bodies have these sizes.
fn contents_of(sizes: &[u16], out: &mut Page<'_>)
    requires { length sizes.now ≤ 255 }
    ensures same_buffer { out.new.bytes.ghost_name ≡ out.old.bytes.ghost_name }
    ensures laid { LaysFrom (page_of out.old) (page_of out.new) (head_of sizes.now) }
{
    let k = sizes.len();
    out.put(&[1, k as u8]);
    let mut offset = 2 + 6 * k;
    for (i, size) in sizes.iter().enumerate() {
        let size = usize::from(*size);
        out.put(&format::entry_bytes((i + 1) as u8, offset, size));
        offset += size;
    }
}

// The contents, and the body of kind 1.
fn front(sizes: &[u16], cabling: &Cabling, out: &mut Page<'_>)
    requires few { length sizes.now ≤ 255 }
    requires count { cabling.now.nodes ≤ max_nodes }
    ensures same_buffer { out.new.bytes.ghost_name ≡ out.old.bytes.ghost_name }
    ensures laid { LaysFrom (page_of out.old) (page_of out.new) (front_of sizes.now cabling.now.nodes cabling.now.pairs.now) }
{
    contents_of(sizes, out);
    out.put(&[cabling.nodes as u8, 0]);
    out.put(cabling.pairs);
}

// The links image.
pub(crate) fn links(cabling: &Cabling, buffer: &mut [u8]) -> Result<usize, Refusal>
    requires { Good (cabled cabling.now.nodes cabling.now.pairs.now) }
    ensures { Writes (Ok tt) (image_of links_kinds (cabled cabling.now.nodes cabling.now.pairs.now)) buffer.old result buffer.new }
{
    let size = 10 + cabling.pairs.len();
    if buffer.len() < size {
        return Err(Refusal::Short);
    }
    let sizes = [(2 + cabling.pairs.len()) as u16];
    let mut out = Page::new(buffer);
    front(&sizes, cabling, &mut out);
    Ok(out.at)
}

// The full image, of the fabric of the cabling.
pub(crate) fn full(f: &Fabric, pairs: &[u8], buffer: &mut [u8]) -> Result<usize, Refusal>
    requires good { Good (cabled f.now.nodes pairs.now) }
    requires made { f.now ≡ fabric_of (cabled f.now.nodes pairs.now) }
    ensures { Writes (Ok tt) (image_of full_kinds (cabled f.now.nodes pairs.now)) buffer.old result buffer.new }
{
    let n = f.nodes;
    let rows = n * n;
    let size = 28 + pairs.len() + n + 2 * rows;
    if buffer.len() < size {
        return Err(Refusal::Short);
    }
    let sizes = [(2 + pairs.len()) as u16, n as u16, rows as u16, rows as u16];
    let mut out = Page::new(buffer);
    front(&sizes, &Cabling { nodes: n, pairs }, &mut out);
    out.put(slices::front(&f.labels, n));
    out.put(slices::front(&f.free, rows));
    out.put(slices::front(&f.falling, rows));
    Ok(out.at)
}

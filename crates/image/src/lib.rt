// An image opened: the verdict on it, and its fabric. The checks are made in the order of RULES 9.2.
#![tactic(auto)]

ghost use Rattle.std.specs.Prelude.{◌≡◌, drop};
ghost use Rattle.refusal.specs.Verdicts.{and_then};
ghost use Rattle.cabling.specs.Cabling.{cabled, Good};
ghost use Rattle.fabric.specs.Fabric.{fabric_of, made_by};
ghost use Rattle.format.specs.Bytes.{same_bodies};
ghost use Rattle.image.specs.Image.{bodies_of, cabling_in};
ghost use Rattle.image.specs.Faults.{front_fault, cabling_fault, tables_fault, links_fault, image_fault};

use cabling::Cabling;
use fabric::Fabric;
use format::{FULL, LINKS};
use nodes::{MAX_LINKS, MAX_NODES};
use refusal::Refusal;

// RULES 6.2: "A full image has 28 + 2M + N + 2N² bytes", M and N at the most.
pub const LONGEST: usize = 28 + 2 * MAX_LINKS + MAX_NODES + 2 * (MAX_NODES * MAX_NODES);

// A links image has 10 + 2M.
pub const LONGEST_LINKS: usize = 10 + 2 * MAX_LINKS;

// 2 and 3, of the first two bytes of kind 1.
fn front_fault(image: &[u8]) -> Result<(), Refusal>
    ensures { result ≡ front_fault image.now }
{
    let n = format::nodes_in(image);
    if n < 2 {
        return Err(Refusal::Count);
    }
    if MAX_NODES < n {
        return Err(Refusal::Count);
    }
    if format::zero_in(image) != 0 {
        return Err(Refusal::Shape);
    }
    Ok(())
}

// The cabling that kind 1 of an image holds.
pub fn cabling_in(image: &[u8]) -> Cabling<'_>
    ensures { cabled result.nodes result.pairs.now ≡ cabling_in image.now }
{
    Cabling {
        nodes: format::nodes_in(image),
        pairs: format::pairs_in(image),
    }
}

// 2 to 7, of an image whose contents are in order.
fn cabling_fault(image: &[u8]) -> Result<(), Refusal>
    ensures { result ≡ cabling_fault image.now }
{
    front_fault(image)?;
    cabling_in(image).fault()
}

// The fabric of an image whose contents are in order, or the first fault of its cabling, 2 to 7.
pub fn make_in(image: &[u8]) -> Result<Fabric, Refusal>
    ensures { result ≡ made_by (cabling_fault image.now) (cabling_in image.now) }
{
    front_fault(image)?;
    fabric::make(&cabling_in(image))
}

// Are kinds 2, 3 and 4 the labels and rows of the fabric of the image's cabling?
fn agrees(image: &[u8], f: &Fabric) -> bool
    requires good { Good (cabling_in image.now) }
    requires made { f.now ≡ fabric_of (cabling_in image.now) }
    ensures { result ≡ same_bodies image.now 1 (drop 1 (bodies_of (cabling_in image.now))) }
{
    let size = f.nodes * f.nodes;
    if !slices::same_bytes(format::body_at(image, 1), slices::front(&f.labels, f.nodes)) {
        return false;
    }
    if !slices::same_bytes(format::body_at(image, 2), slices::front(&f.free, size)) {
        return false;
    }
    slices::same_bytes(format::body_at(image, 3), slices::front(&f.falling, size))
}

// The fabric of an image with the contents of a full one, or its first fault, 2 to 8.
fn open_full(image: &[u8]) -> Result<Fabric, Refusal>
    ensures { result ≡ made_by (and_then (cabling_fault image.now) (tables_fault image.now)) (cabling_in image.now) }
{
    let f = make_in(image)?;
    if !agrees(image, &f) {
        return Err(Refusal::Differs);
    }
    Ok(f)
}

// The fabric of either image, or its first fault, 1 to 8: labels and tables are made once.
pub fn open(image: &[u8]) -> Result<Fabric, Refusal>
    ensures { result ≡ made_by (image_fault image.now) (cabling_in image.now) }
{
    if contents::in_order(image, FULL) {
        return open_full(image);
    }
    if contents::in_order(image, LINKS) {
        return make_in(image);
    }
    Err(Refusal::Contents)
}

// 1 to 7, of a links image alone.
pub fn links_verdict(image: &[u8]) -> Result<(), Refusal>
    ensures { result ≡ links_fault image.now }
{
    if !contents::in_order(image, LINKS) {
        return Err(Refusal::Contents);
    }
    cabling_fault(image)
}

// 1 to 8, of either image. A links image needs no fabric for that.
pub fn verdict(image: &[u8]) -> Result<(), Refusal>
    ensures { result ≡ image_fault image.now }
{
    if contents::in_order(image, LINKS) {
        return cabling_fault(image);
    }
    open(image)?;
    Ok(())
}

// The calls write and build: an image in a lent buffer, whole or not at all.
#![tactic(auto)]

ghost use Rattle.cabling.specs.Cabling.{cabled};
ghost use Rattle.cabling.specs.Faults.{fault_of};
ghost use Rattle.format.specs.Contents.{full_kinds};
ghost use Rattle.results.specs.Written.{Writes};
ghost use Rattle.image.specs.Image.{image_of, kinds_of, cabling_in};
ghost use Rattle.image.specs.Faults.{links_fault};

mod laying; // laying.rt: the bytes of an image, laid in a lent buffer

use cabling::Cabling;
use format::LINKS;
use refusal::Refusal;

// Writes the image of a cabling, full or links only, under the checks 2 to 7 and 9.
pub fn write(cabling: &Cabling, full: bool, buffer: &mut [u8]) -> Result<usize, Refusal>
    ensures { Writes (fault_of (cabled cabling.now.nodes cabling.now.pairs.now)) (image_of (kinds_of full) (cabled cabling.now.nodes cabling.now.pairs.now)) buffer.old result buffer.new }
{
    if full {
        let f = fabric::make(cabling)?;
        return laying::full(&f, cabling.pairs, buffer);
    }
    cabling.fault()?;
    laying::links(cabling, buffer)
}

// Writes the full image of a links image, under the checks 1 to 7 and 9.
pub fn build(image: &[u8], buffer: &mut [u8]) -> Result<usize, Refusal>
    ensures { Writes (links_fault image.now) (image_of full_kinds (cabling_in image.now)) buffer.old result buffer.new }
{
    if !contents::in_order(image, LINKS) {
        return Err(Refusal::Contents);
    }
    let f = image::make_in(image)?;
    laying::full(&f, format::pairs_in(image), buffer)
}

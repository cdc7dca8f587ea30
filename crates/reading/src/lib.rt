// The call read: N, M and which image it is, and the pairs in a lent buffer.
#![tactic(auto)]

ghost use Rattle.reading.specs.Reads.{Reads};

use format::FULL;
use refusal::Refusal;

// What `read` says of an image: the numbers of nodes and links, and whether it is a full one.
#[derive(Clone, Copy)]
pub struct Summary {
    pub nodes: usize,
    pub links: usize,
    pub full: bool,
}

// Answers the numbers of nodes and links and which image it is, and writes the pairs, under the checks 1 to 9.
pub fn read(image: &[u8], buffer: &mut [u8]) -> Result<Summary, Refusal>
    ensures { Reads image.now buffer.old result buffer.new }
{
    image::verdict(image)?;
    let size = results::place(format::pairs_in(image), buffer)?;
    Ok(Summary {
        nodes: format::nodes_in(image),
        links: size / 2,
        full: contents::in_order(image, FULL),
    })
}

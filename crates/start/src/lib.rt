// The start call of the drain machine: an image under read's rules, the list of messages under its own, and then a fresh record.
#![tactic(auto)]

ghost use Rattle.std.specs.Prelude.{◌≡◌, ◌<◌, ◌/◌, length};
ghost use Rattle.finite.specs.Lowest.{lowest};
ghost use Rattle.start.specs.Start.{strange, list_fault, start_fault, fresh_of, fresh_by, start_of};

use messages::{MAX_LIST, Record};
use refusal::Refusal;

// What start answers: the verdict, and the record: fresh, or as it was where the call is refused.
// No Result of a record: a refused start hands the record back too.
#[derive(Clone, Copy)]
pub struct Started {
    pub verdict: Result<(), Refusal>,
    pub record: Record,
}

// Is an end of message p not a node?
fn is_strange(n: usize, list: &[u8], p: usize) -> bool
    requires { p < length list.now / 2 }
    ensures { result ≡ strange n list.now p }
{
    n <= usize::from(slices::byte(list, 2 * p)) || n <= usize::from(slices::byte(list, 2 * p + 1))
}

// The first message with an end that is not a node.
fn first_strange(n: usize, list: &[u8]) -> Option<usize>
    ensures { result ≡ lowest (length list.now / 2) (strange n list.now) }
{
    (0..list.len() / 2).find(|&p| is_strange(n, list, p))
}

// 11, then 10 at the message's place.
fn list_fault(n: usize, list: &[u8]) -> Result<(), Refusal>
    ensures { result ≡ list_fault n list.now }
{
    if list.len() % 2 != 0 {
        return Err(Refusal::Messages);
    }
    if MAX_LIST < list.len() {
        return Err(Refusal::Messages);
    }
    if let Some(p) = first_strange(n, list) {
        return Err(Refusal::Unknown(p));
    }
    Ok(())
}

// The record of a fresh start, or the first fault: 1 to 8 of the image, 11 and 10 of the list.
pub fn fresh(image: &[u8], list: &[u8]) -> Result<Record, Refusal>
    ensures { result ≡ fresh_by (start_fault image.now list.now) (fresh_of image.now list.now) }
{
    let f = image::open(image)?;
    list_fault(f.nodes, list)?;
    Ok(records::begun(f.nodes, f.labels, f.free, f.falling, list))
}

// Starts the machine afresh.
pub fn start(record: Record, image: &[u8], list: &[u8]) -> Started
    ensures { result ≡ start_of «record» image.now list.now }
{
    match fresh(image, list) {
        Ok(after) => Started {
            verdict: Ok(()),
            record: after,
        },
        Err(r) => Started {
            verdict: Err(r),
            record,
        },
    }
}

// The drain machine over a record that its caller lends: start and move, and beside each a function that owns the record, lends it and hands it back.
#![tactic(auto)]

ghost use Rattle.std.specs.Prelude.{◌≡◌};
ghost use Rattle.messages.specs.Step.{with, step_of};
ghost use Rattle.start.specs.Start.{beside, start_of};

use messages::{Answer, Record, Stepped};
use refusal::Refusal;
use start::Started;

// One move of a message. RULES 8.1: "Its caller lends it for the length of one move."
pub fn advance(record: &mut Record, message: usize) -> Result<Answer, Refusal>
    ensures { with «record».new result ≡ step_of «record».old message }
{
    let done = records::step(*record, message);
    *record = done.record;
    done.answer
}

// The same by value, a promise of its own (`moved_determined`).
pub fn moved(record: Record, message: usize) -> Stepped
    ensures { result ≡ step_of «record» message }
{
    let mut lent = record;
    let answer = advance(&mut lent, message);
    Stepped {
        record: lent,
        answer,
    }
}

// RULES 8.2: "Start fills a lent record anew, from an image (under read's rules) and a list of byte pairs (source, destination)".
pub fn start(record: &mut Record, image: &[u8], list: &[u8]) -> Result<(), Refusal>
    ensures { beside result «record».new ≡ start_of «record».old image.now list.now }
{
    *record = start::fresh(image, list)?;
    Ok(())
}

// The same by value, a promise of its own (`started_determined`).
pub fn started(record: Record, image: &[u8], list: &[u8]) -> Started
    ensures { result ≡ start_of «record» image.now list.now }
{
    let mut lent = record;
    let verdict = start(&mut lent, image, list);
    Started {
        verdict,
        record: lent,
    }
}

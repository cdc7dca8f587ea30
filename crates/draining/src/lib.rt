// Draining: a start, and picks until every message is delivered.
#![tactic(auto)]

ghost use Rattle.std.specs.Prelude.{◌≡◌};
ghost use Rattle.draining.specs.Drained.{PicksIn, drain_of};

use hops::Tables;
use machine::Lent;
use messages::{NODE_CHANNELS, Record};
use refusal::Refusal;

// What a drain answers: the verdict on its start, and the record: drained, or as it was where the start is refused.
// No Result of a record: a refused drain hands the record back too.
#[derive(Clone, Copy)]
pub struct Drained {
    pub verdict: Result<(), Refusal>,
    pub record: Record,
}

// One pick, in the record where it stands: the next seed. A message that is delivered gives back only channels below `span`. (`records::step` lends the
// same parts: no clause says what a record ends as whose parts a function hands on in a struct.)
fn pick(record: &mut Record, seed: u32, span: usize) -> u32
    ensures { PicksIn span seed «record».old result «record».new }
{
    let mut lent = Lent {
        tables: Tables {
            nodes: record.nodes,
            labels: &record.labels,
            free: &record.free,
            falling: &record.falling,
        },
        messages: record.messages,
        moves: &mut record.moves,
        targets: &record.targets,
        heads: &mut record.heads,
        classes: &mut record.classes,
        wants: &mut record.wants,
        delivered: &mut record.delivered,
        holders: &mut record.holders,
    };
    let picked = picking::pick_in(seed, &mut lent, span);
    picked.seed
}

// Starts the machine, and moves messages until every one is delivered. No channel is held but those of the N nodes, so those behind are not looked at.
pub fn drain(record: Record, image: &[u8], list: &[u8], seed: u32) -> Drained
    ensures { result ≡ drain_of «record» image.now list.now seed }
{
    let mut last = match start::fresh(image, list) {
        Ok(fresh) => fresh,
        Err(r) => {
            return Drained {
                verdict: Err(r),
                record,
            };
        }
    };
    let span = NODE_CHANNELS * nodes::capped(last.nodes);
    let mut next = seed;
    while !machine::all_delivered_in(last.messages, &last.delivered) {
        next = pick(&mut last, next, span);
    }
    Drained {
        verdict: Ok(()),
        record: last,
    }
}

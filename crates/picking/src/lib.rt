// One pick of a drain: which message moves next, and its move.
#![tactic(auto)]

ghost use Rattle.std.specs.Prelude.{◌≡◌, ◌≤◌, min};
ghost use Rattle.seeds.specs.Seed.{next_seed, look_at};
ghost use Rattle.messages.specs.Sizes.{max_messages};
ghost use Rattle.messages.specs.Ready.{ready_at};
ghost use Rattle.machine.specs.Lent.{made_of, StaysLent};
ghost use Rattle.picking.specs.Order.{chosen_by, pick_of};
ghost use Rattle.picking.specs.InPlace.{picked, pick_in};

use hops::Tables;
use machine::Lent;
use messages::{MAX_CHANNELS, Record};

// One move of a drain: the seed, the message where it looked first, the one that moved, and the record after it.
#[derive(Clone, Copy)]
pub struct Picked {
    pub seed: u32,
    pub look: usize,
    pub message: usize,
    pub record: Record,
}

// The same without a record: in arrays that stay in their place it is what they make.
#[derive(Clone, Copy)]
pub struct PickedIn {
    pub seed: u32,
    pub look: usize,
    pub message: usize,
}

// The first message that is ready from `look` on, going round; `look` where none is, as `chosen_by` says. It is lent what `is_ready` is.
fn choice(messages: usize, wants: &[u16], delivered: &[u8], holders: &[u16], look: usize) -> usize
    requires { look ≤ max_messages }
    ensures { result ≡ chosen_by (min messages max_messages) (ready_at wants.now delivered.now holders.now) look }
{
    let n = machine::few(messages);
    // A `for`: a chain that finds k would say (look + k) % n once more behind it.
    for k in 0..n {
        let m = (look + k) % n;
        if machine::is_ready(wants, delivered, holders, m) {
            return m;
        }
    }
    look
}

// The next seed, where it says to look, and the message that is found there.
fn found(seed: u32, messages: usize, wants: &[u16], delivered: &[u8], holders: &[u16]) -> PickedIn
    ensures seed { result.seed ≡ next_seed seed }
    ensures look { result.look ≡ look_at result.seed (min messages max_messages) }
    ensures message { result.message ≡ chosen_by (min messages max_messages) (ready_at wants.now delivered.now holders.now) result.look }
{
    let next = seeds::next_seed(seed);
    let from = seeds::look(next, machine::few(messages));
    PickedIn {
        seed: next,
        look: from,
        message: choice(messages, wants, delivered, holders, from),
    }
}

// The next seed, where it says to look, and the move, in place, of the message found there. One that is delivered gives back only channels below `span`.
pub fn pick_in<'a>(seed: u32, lent: &mut Lent<'a>, span: usize) -> PickedIn
    ensures pick { picked result.seed result.look result.message (made_of lent.new) ≡ pick_in span seed (made_of lent.old) }
    ensures lent { StaysLent lent.old lent.new }
{
    let wants = &mut *lent.wants;
    let delivered = &mut *lent.delivered;
    let holders = &mut *lent.holders;
    let picked = found(seed, lent.messages, wants, delivered, holders);
    // A pick tells no answer: a refused move leaves the record as it was.
    let _ = machine::step_in(lent, span, picked.message);
    picked
}

// The next seed, where it says to look, and the move of the message that is found there.
pub fn pick(seed: u32, record: Record) -> Picked
    ensures { result ≡ pick_of seed «record» }
{
    let mut after = record;
    let whole = &mut after;
    let mut lent = Lent {
        tables: Tables {
            nodes: whole.nodes,
            labels: &whole.labels,
            free: &whole.free,
            falling: &whole.falling,
        },
        messages: whole.messages,
        moves: &mut whole.moves,
        targets: &whole.targets,
        heads: &mut whole.heads,
        classes: &mut whole.classes,
        wants: &mut whole.wants,
        delivered: &mut whole.delivered,
        holders: &mut whole.holders,
    };
    let picked = pick_in(seed, &mut lent, MAX_CHANNELS);
    Picked {
        seed: picked.seed,
        look: picked.look,
        message: picked.message,
        record: after,
    }
}

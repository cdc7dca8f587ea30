// The drain record by value: blank, begun anew, moved by one step, asked whether every message is delivered.
#![tactic(auto)]

ghost use Rattle.std.specs.Prelude.{◌≡◌, ◌+◌, ◌*◌, ◌≤◌, get_or};
ghost use Rattle.finite.specs.Lists.{tabulate};
ghost use Rattle.messages.specs.Sizes.{max_messages};
ghost use Rattle.messages.specs.Channels.{injection};
ghost use Rattle.messages.specs.Step.{step_of};
ghost use Rattle.messages.specs.Fresh.{source_in, begun_of, blank_record};
ghost use Rattle.messages.specs.Ready.{all_delivered};

use hops::Tables;
use machine::Lent;
use messages::{MAX_CHANNELS, MAX_MESSAGES, MAX_PAIRS, Record, Stepped};
use nodes::MAX_NODES;

// One move of a message: its answer, and the record after it. By value, as docs/RULES.md (12.1) asks; over it there is lent::advance.
pub fn step(record: Record, message: usize) -> Stepped
    ensures { result ≡ step_of «record» message }
{
    let mut after = record;
    let whole = &mut after;
    let mut lent = Lent {
        tables: Tables {
            nodes: whole.nodes,
            labels: &whole.labels,
            free: &whole.free,
            falling: &whole.falling,
        },
        messages: whole.messages,
        moves: &mut whole.moves,
        targets: &whole.targets,
        heads: &mut whole.heads,
        classes: &mut whole.classes,
        wants: &mut whole.wants,
        delivered: &mut whole.delivered,
        holders: &mut whole.holders,
    };
    let answer = machine::step_in(&mut lent, MAX_CHANNELS, message);
    Stepped {
        record: after,
        answer,
    }
}

// Is every message delivered?
pub fn all_delivered(record: Record) -> bool
    ensures { result ≡ all_delivered «record» }
{
    machine::all_delivered_in(record.messages, &record.delivered)
}

// Every second byte of the list, from byte `first` on; 0 past its end.
fn ends(list: &[u8], first: usize) -> [u8; MAX_MESSAGES]
    requires { first ≤ 1 }
    ensures { result ≡ tabulate max_messages (λ m. get_or list.now (2 * m + first) 0) }
{
    let mut nodes = [0; MAX_MESSAGES];
    for (m, node) in nodes.iter_mut().enumerate() {
        *node = slices::byte(list, 2 * m + first);
    }
    nodes
}

// The injection channel of each message's source.
fn injections(list: &[u8]) -> [u16; MAX_MESSAGES]
    ensures { result ≡ tabulate max_messages (λ m. injection (source_in list.now m)) }
{
    let mut wants = [0; MAX_MESSAGES];
    for (m, want) in wants.iter_mut().enumerate() {
        *want = machine::injection(slices::byte(list, 2 * m));
    }
    wants
}

// The record that a fresh start fills. Its parts come one by one, as `begun_of` takes them.
pub fn begun(
    n: usize,
    labels: [u8; MAX_NODES],
    free: [u8; MAX_PAIRS],
    falling: [u8; MAX_PAIRS],
    list: &[u8],
) -> Record
    ensures { result ≡ begun_of n labels free falling list.now }
{
    let targets = ends(list, 1);
    let heads = ends(list, 0);
    let wants = injections(list);
    Record {
        nodes: n,
        messages: machine::few(list.len() / 2),
        moves: 0,
        labels,
        free,
        falling,
        targets,
        heads,
        classes: [0; MAX_MESSAGES],
        wants,
        delivered: [0; MAX_MESSAGES],
        holders: [0; MAX_CHANNELS],
    }
}

// A record to start with: a start fills it anew.
pub fn blank() -> Record
    ensures { result ≡ blank_record }
{
    let labels = [0u8; MAX_NODES];
    let rows = [0u8; MAX_PAIRS];
    begun(0, labels, rows, rows, b"")
}

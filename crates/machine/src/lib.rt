// The drain machine, in arrays that stay in their place: messages enter at their sources, follow their tables' routes, leave at their destinations, hold every
// channel that they took, and give all back when they are delivered.
#![tactic(auto)]

ghost use Rattle.std.specs.Prelude.{◌≡◌, min, get_or};
ghost use Rattle.finite.specs.Truth.{non, same};
ghost use Rattle.finite.specs.Search.{all};
ghost use Rattle.messages.specs.Sizes.{max_messages};
ghost use Rattle.messages.specs.Channels.{injection};
ghost use Rattle.messages.specs.Step.{ahead_in, counted, with};
ghost use Rattle.messages.specs.Ready.{ready_at};
ghost use Rattle.machine.specs.InPlace.{advanced, step_in};
ghost use Rattle.machine.specs.Lent.{made_of, StaysLent};

mod channels; // channels.rt: numbers of channels, and who holds one

use hops::Tables;
use messages::{ALL_TAKEN, Ahead, Answer, MAX_CHANNELS, MAX_MESSAGES, NO_CHANNEL};
use refusal::Refusal;

// A record's parts, each array where it stands: slices of any length.
#[derive(Drop)]
pub struct Lent<'a> {
    pub tables: Tables<'a>,
    pub messages: usize,
    pub moves: &'a mut usize,
    pub targets: &'a [u8],
    pub heads: &'a mut [u8],
    pub classes: &'a mut [u8],
    pub wants: &'a mut [u16],
    pub delivered: &'a mut [u8],
    pub holders: &'a mut [u16],
}

// One successful move more; a count that is full stays full.
fn count(moves: usize) -> usize
    ensures { result ≡ counted moves }
{
    moves.saturating_add(1)
}

// Is a message marked among these bytes, one a message?
fn marked(bytes: &[u8], message: usize) -> bool
    ensures { result ≡ non (same (get_or bytes.now message 0) 0) }
{
    slices::byte(bytes, message) != 0
}

// The injection channel of a node, which a message from there wants at first.
pub fn injection(node: u8) -> u16
    ensures { result ≡ injection node }
{
    channels::injection(node)
}

// What comes behind the channel that a message wants, where it goes to this target.
fn ahead<'a>(tables: Tables<'a>, at: Ahead, target: u8) -> Ahead
    ensures { result ≡ ahead_in tables.entry.nodes tables.entry.labels.now tables.entry.free.now tables.entry.falling.now at.want at.head at.class target }
{
    let Ahead { want, head, class } = at;
    let last = channels::consumption(target);
    if want == last {
        let want = ALL_TAKEN as u16; // `as`: the constant goes into 16 bits
        return Ahead { want, head, class };
    }
    if head == target {
        let want = last;
        return Ahead { want, head, class };
    }
    let Ok(Some(hop)) = tables.within(usize::from(head), usize::from(class), usize::from(target))
    else {
        let want = NO_CHANNEL as u16; // `as`: likewise
        return Ahead { want, head, class };
    };
    let want = channels::hop(head, hop.node);
    Ahead {
        want,
        head: hop.node,
        class: hop.class,
    }
}

// A message has taken the channel that it wanted: the next one is written down, and where that leads.
fn advance<'a>(lent: &mut Lent<'a>, message: usize)
    ensures advanced { made_of lent.new ≡ advanced (made_of lent.old) message }
    ensures lent { StaysLent lent.old lent.new }
{
    let heads = &mut *lent.heads;
    let classes = &mut *lent.classes;
    let wants = &mut *lent.wants;
    let taken = Ahead {
        want: slices::get(wants, message, 0),
        head: slices::byte(heads, message),
        class: slices::byte(classes, message),
    };
    let found = ahead(lent.tables, taken, slices::byte(lent.targets, message));
    slices::put(heads, message, found.head);
    slices::put(classes, message, found.class);
    slices::put(wants, message, found.want);
}

// One move of a message, in arrays that stay in their place. A message that is delivered gives back only channels below `span`.
pub fn step_in<'a>(lent: &mut Lent<'a>, span: usize, message: usize) -> Result<Answer, Refusal>
    ensures step { with (made_of lent.new) result ≡ step_in span (made_of lent.old) message }
    ensures lent { StaysLent lent.old lent.new }
{
    let wants = &mut *lent.wants;
    let delivered = &mut *lent.delivered;
    let holders = &mut *lent.holders;
    if few(lent.messages) <= message {
        return Err(Refusal::Unknown(0));
    }
    if marked(delivered, message) {
        return Ok(Answer::Already);
    }
    let want = usize::from(slices::get(wants, message, 0));
    if want == ALL_TAKEN {
        // `as`: a message has a number below 256.
        channels::release(holders, span, (message + 1) as u16);
        slices::put(delivered, message, 1);
        *lent.moves = count(*lent.moves);
        return Ok(Answer::Delivered);
    }
    if MAX_CHANNELS <= want {
        return Err(Refusal::Unknown(0));
    }
    let holder = usize::from(slices::get(holders, want, 0));
    if holder != 0 {
        let by = holder - 1;
        return Ok(Answer::Blocked(by));
    }
    slices::put(holders, want, (message + 1) as u16);
    *lent.moves = count(*lent.moves);
    advance(lent, message);
    Ok(Answer::Moved)
}

// Would a move of a message succeed? It asks for these three arrays alone: a struct of what is lent would ask for more.
pub fn is_ready(wants: &[u16], delivered: &[u8], holders: &[u16], message: usize) -> bool
    ensures { result ≡ ready_at wants.now delivered.now holders.now message }
{
    if marked(delivered, message) {
        return false;
    }
    let want = usize::from(slices::get(wants, message, 0));
    if want == ALL_TAKEN {
        return true;
    }
    if MAX_CHANNELS <= want {
        return false;
    }
    slices::get(holders, want, 0) == 0
}

// Is every message delivered, by their marks?
pub fn all_delivered_in(messages: usize, delivered: &[u8]) -> bool
    ensures { result ≡ all (min messages max_messages) (λ m. non (same (get_or delivered.now m 0) 0)) }
{
    (0..few(messages)).all(|m| marked(delivered, m))
}

// At most 256 messages.
pub fn few(n: usize) -> usize
    ensures { result ≡ min n max_messages }
{
    n.min(MAX_MESSAGES)
}

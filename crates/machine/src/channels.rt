// Channels: their numbers, which all go into 16 bits (`as`: `try_from` would have an error that never comes), and who holds one.
ghost use Rattle.std.specs.Prelude.{◌≡◌};
ghost use Rattle.messages.specs.Channels.{hop_channel, injection, consumption};
ghost use Rattle.messages.specs.Step.{released};
ghost use Rattle.machine.specs.InPlace.{given_back};

use messages::NODE_CHANNELS;
use nodes::MAX_NODES;

// The channel of the hop from a to b. (A function for each kind of channel, as RULES 8.1 names them.)
pub fn hop(a: u8, b: u8) -> u16
    ensures { result ≡ hop_channel a b }
{
    (NODE_CHANNELS * usize::from(a) + usize::from(b)) as u16
}

// The injection channel of a node.
pub fn injection(node: u8) -> u16
    ensures { result ≡ injection node }
{
    (NODE_CHANNELS * usize::from(node) + MAX_NODES) as u16
}

// The consumption channel of a node.
pub fn consumption(node: u8) -> u16
    ensures { result ≡ consumption node }
{
    (NODE_CHANNELS * usize::from(node) + (MAX_NODES + 1)) as u16
}

// A channel's holder once `holder` has given back what it holds.
fn left(h: u16, holder: u16) -> u16
    ensures { result ≡ released holder h }
{
    if h == holder { 0 } else { h }
}

// What `holder` holds of the channels below `span` is given back.
pub fn release(holders: &mut [u16], span: usize, holder: u16)
    ensures { holders.new ≡ given_back span holder holders.old }
{
    // By the index: a loop over elements would have to split the slice at the bound, which is no plainer.
    for c in 0..span.min(holders.len()) {
        holders[c] = left(holders[c], holder);
    }
}

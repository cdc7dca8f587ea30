// The messages of the drain machine: the record of them, and the answers to a move. No function: what a move is stands in specs/, demand 3 (RULES 2.3) in
// proofs/.
#![tactic(auto)]

use nodes::MAX_NODES;
use refusal::Refusal;

// RULES 8.2: "0 to 256 of them"
pub const MAX_MESSAGES: usize = 256;

// The bytes of so many pairs.
pub const MAX_LIST: usize = 2 * MAX_MESSAGES;

// An entry of a table belongs to a pair of nodes.
pub const MAX_PAIRS: usize = MAX_NODES * MAX_NODES;

// A node has a channel to each node, and behind these its injection and its consumption channel.
pub const NODE_CHANNELS: usize = MAX_NODES + 2;

pub const MAX_CHANNELS: usize = MAX_NODES * NODE_CHANNELS;

// Numbers of no channel, in place of the one that a message takes next: it has taken all, or no channel comes next.
pub const ALL_TAKEN: usize = MAX_CHANNELS;

pub const NO_CHANNEL: usize = MAX_CHANNELS + 1;

// What the machine knows: the network's labels and rows, and of each message its destination, the channel that it wants next, the node where its head is and
// its class (0 free, 1 falling) once it has taken that, and whether it is delivered (1). A channel's holder is 0 where it is free, else the message's number
// plus 1.
// The arrays stay apart and marks are bytes: `step_in` and `is_ready` promise for arrays of any length, each its own, and for any mark. Numbers stand for none,
// since demand 3 speaks of them (`Says`, `Tells`, `MoveFault`).
#[derive(Clone, Copy)]
pub struct Record {
    pub nodes: usize,
    pub messages: usize,
    pub moves: usize,
    pub labels: [u8; MAX_NODES],
    pub free: [u8; MAX_PAIRS],
    pub falling: [u8; MAX_PAIRS],
    pub targets: [u8; MAX_MESSAGES],
    pub heads: [u8; MAX_MESSAGES],
    pub classes: [u8; MAX_MESSAGES],
    pub wants: [u16; MAX_MESSAGES],
    pub delivered: [u8; MAX_MESSAGES],
    pub holders: [u16; MAX_CHANNELS],
}

// The channel that a message wants next, and the node where its head is and its class once it has taken that.
#[derive(Clone, Copy)]
pub struct Ahead {
    pub want: u16,
    pub head: u8,
    pub class: u8,
}

// The answer to one move that is not refused.
#[derive(Clone, Copy)]
pub enum Answer {
    // It is delivered already.
    Already,
    // It took its next channel.
    Moved,
    // That message holds its next channel.
    Blocked(usize),
    // It is delivered now, and gave back all its channels.
    Delivered,
}

// A move's answer, or its refusal where there is no such message or no channel comes next for it, beside the record after it.
#[derive(Clone, Copy)]
pub struct Stepped {
    pub record: Record,
    pub answer: Result<Answer, Refusal>,
}

// The calls that read lent tables of next hops: the row of a node in a class, and the hop of a message, with the class that comes after it.
#![tactic(auto)]

ghost use Rattle.std.specs.Prelude.{◌≡◌, ◌≤◌};
ghost use Rattle.finite.specs.Truth.{below};
ghost use Rattle.lawful.specs.Turn.{label_in};
ghost use Rattle.hops.specs.Row.{row_known, row_in};
ghost use Rattle.hops.specs.Hop.{class_after, onward_of, hop_in, hop_within};

use nodes::{MAX_NODES, NONE};
use refusal::Refusal;

// Are there such tables, such a node and such a class? Refusal 10 where not.
fn known(free: &[u8], falling: &[u8], n: usize, node: usize, class: usize) -> bool
    ensures { result ≡ row_known free.now falling.now n node class }
{
    if n < 2 {
        return false;
    }
    if MAX_NODES < n {
        return false;
    }
    if free.len() != n * n {
        return false;
    }
    if falling.len() != n * n {
        return false;
    }
    if n <= node {
        return false;
    }
    class <= 1
}

// The row of a node in a class: that part of the table that holds it. The empty part is refusal 10.
// No method of `Tables`: docs/RULES.md (7.5) lends row no labels.
pub fn row<'a>(free: &'a [u8], falling: &'a [u8], n: usize, node: usize, class: usize) -> &'a [u8]
    ensures { result.now ≡ row_in free.now falling.now n node class }
{
    if !known(free, falling, n, node, class) {
        return &free[..0];
    }
    let from = node * n;
    let to = from + n;
    if class == 0 {
        &free[from..to]
    } else {
        &falling[from..to]
    }
}

// A hop: the next node, and the class to use there, 0 free or 1 falling (RULES 5.1).
#[derive(Clone, Copy)]
pub struct Hop {
    pub node: u8,
    pub class: u8,
}

// Labels and tables of N nodes, as they are lent.
#[derive(Clone, Copy)]
pub struct Tables<'a> {
    pub nodes: usize,
    pub labels: &'a [u8],
    pub free: &'a [u8],
    pub falling: &'a [u8],
}

// What is asked is a node, a class and a destination, one by one, as RULES 7.5 has them.
impl<'a> Tables<'a> {
    // Is the label of `next` lower than the node's?
    fn falls(self, node: usize, next: usize) -> bool
        ensures { result ≡ below (label_in self.entry.labels.now next) (label_in self.entry.labels.now node) }
    {
        slices::byte(self.labels, next) < slices::byte(self.labels, node)
    }

    // The class after a hop to the node `next`.
    fn class_after(self, node: usize, class: usize, destination: usize, next: usize) -> u8
        requires { class ≤ 1 }
        ensures { result ≡ class_after self.entry.labels.now node class destination next }
    {
        if node == destination {
            return class as u8; // `as`: 0 or 1
        }
        if class == 1 {
            return 1;
        }
        if self.falls(node, next) { 1 } else { 0 }
    }

    // What a byte that is stored leads to.
    fn onward(
        self,
        node: usize,
        class: usize,
        destination: usize,
        next: u8,
    ) -> Result<Option<Hop>, Refusal>
        requires { class ≤ 1 }
        ensures { result ≡ onward_of self.entry.labels.now self.entry.nodes node class destination next }
    {
        if next == NONE {
            return Ok(None);
        }
        let n = self.nodes;
        if n <= usize::from(next) {
            return Err(Refusal::Unknown(0));
        }
        let then = self.class_after(node, class, destination, usize::from(next));
        Ok(Some(Hop {
            node: next,
            class: then,
        }))
    }

    // The hop from a node to a destination: none where 255 is stored.
    pub fn hop(self, node: usize, class: usize, destination: usize) -> Result<Option<Hop>, Refusal>
        ensures { result ≡ hop_in self.entry.labels.now self.entry.free.now self.entry.falling.now self.entry.nodes node class destination }
    {
        let part = row(self.free, self.falling, self.nodes, node, class);
        if part.len() <= destination {
            return Err(Refusal::Unknown(0));
        }
        let n = self.nodes;
        if self.labels.len() != n {
            return Err(Refusal::Unknown(0));
        }
        self.onward(node, class, destination, part[destination])
    }

    // The same over arrays that hold labels and tables at their front, as a fabric and a drain record do.
    pub fn within(
        self,
        node: usize,
        class: usize,
        destination: usize,
    ) -> Result<Option<Hop>, Refusal>
        ensures { result ≡ hop_within self.entry.labels.now self.entry.free.now self.entry.falling.now self.entry.nodes node class destination }
    {
        let k = nodes::capped(self.nodes);
        let size = k * k;
        let fronts = Tables {
            nodes: self.nodes,
            labels: slices::front(self.labels, k),
            free: slices::front(self.free, size),
            falling: slices::front(self.falling, size),
        };
        fronts.hop(node, class, destination)
    }
}

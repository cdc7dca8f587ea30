// Node sets. Every function answers at every input; a number that is no node is in no set.
#![tactic(auto)]

ghost use Rattle.std.specs.Prelude.{◌≡◌, min, eqb};
ghost use Rattle.std.specs.Iterator.{at_most};
ghost use Rattle.finite.specs.Truth.{◌&◌, ◌or◌, non, same, below};
ghost use Rattle.finite.specs.Sum.{count};
ghost use Rattle.finite.specs.Search.{least};
ghost use Rattle.finite.specs.Sets.{has, set_of, without};
ghost use Rattle.nodes.specs.Limits.{max_nodes};
ghost use Rattle.nodes.specs.Members.{members};
ghost use Rattle.nodes.specs.InOrder.{PassesLowest};

// RULES 3.1: "2 to 64 nodes"
pub const MAX_NODES: usize = 64;

// RULES 3.1: "at most 512 links"
pub const MAX_LINKS: usize = 512;

// RULES 3.1: "a node has at most 16 links"
pub const MAX_DEGREE: usize = 16;

// RULES 5.3: "255 exactly when there is none"
pub const NONE: u8 = 255;

// One word of 64 bits: node v is a member where bit v is set. Other crates know a set by its members alone.
// An alias: the rows of a table are lent as `&[u64]`, and what they hold is said of these words (`edge_of`).
pub type Set = u64;

// The empty set.
pub fn none() -> Set
    ensures { members result ≡ 0 }
{
    0
}

// Has the set no member?
pub fn is_empty(w: Set) -> bool
    ensures { result ≡ eqb (members w) 0 }
{
    w == 0
}

// Is v in the set?
pub fn has(w: Set, v: usize) -> bool
    ensures { result ≡ has (members w) v }
{
    v < MAX_NODES && (w >> v) % 2 == 1
}

// The set of v alone.
pub fn one(v: usize) -> Set
    ensures { members result ≡ set_of max_nodes (same v) }
{
    if v < MAX_NODES { 1u64 << v } else { 0 }
}

// A number of nodes, 64 at the most.
pub fn capped(n: usize) -> usize
    ensures { result ≡ min n max_nodes }
{
    n.min(MAX_NODES)
}

// The set of the first n nodes: all 64 where n is 64 or more.
pub fn first(n: usize) -> Set
    ensures { members result ≡ set_of max_nodes (λ v. below v n) }
{
    if n < MAX_NODES { (1u64 << n) - 1 } else { !0 }
}

// The set and v.
pub fn with(w: Set, v: usize) -> Set
    ensures { members result ≡ set_of max_nodes (λ u. has (members w) u or same v u) }
{
    w | one(v)
}

// The set without v.
pub fn without(w: Set, v: usize) -> Set
    ensures { members result ≡ set_of max_nodes (without (has (members w)) v) }
{
    w & !one(v)
}

// The nodes in either set.
pub fn union(a: Set, b: Set) -> Set
    ensures { members result ≡ set_of max_nodes (λ u. has (members a) u or has (members b) u) }
{
    a | b
}

// The nodes in both sets.
pub fn common(a: Set, b: Set) -> Set
    ensures { members result ≡ set_of max_nodes (λ u. has (members a) u & has (members b) u) }
{
    a & b
}

// The nodes of the first set that are not in the second.
pub fn difference(a: Set, b: Set) -> Set
    ensures { members result ≡ set_of max_nodes (λ u. has (members a) u & non (has (members b) u)) }
{
    a & !b
}

// How many nodes the set has: the number of ones.
pub fn size(w: Set) -> usize
    ensures { result ≡ count max_nodes (has (members w)) }
{
    // `as`: the library makes no `usize` of a `u32` by `from`.
    w.count_ones() as usize
}

// The lowest node of the set, from its trailing zeros: 64 where the set is empty, by its contract, so that a word needs no test.
pub fn lowest(w: Set) -> usize
    ensures { result ≡ least max_nodes (has (members w)) }
{
    // `as`: the library makes no `usize` of a `u32` by `from`.
    w.trailing_zeros() as usize
}

// The set without its lowest node, in one step: by `without` the walks over members, and with them a build, are slower by 3 to 18 in 100.
pub fn rest(w: Set) -> Set
    ensures { members result ≡ set_of max_nodes (without (has (members w)) (least max_nodes (has (members w)))) }
{
    if w == 0 {
        return 0;
    }
    w - one(lowest(w))
}

// The members of a set that are still to come, the lowest first.
#[derive(Drop)]
pub struct InOrder {
    pub left: Set,
}

impl Iterator for InOrder {
    type Item = usize;

    ghost next_gives = { λ s r t. PassesLowest s.left r t.left };

    ghost remaining = { λ s. at_most (count max_nodes (has (members s.left))) };

    fn next(&mut self) -> Option<usize> {
        if is_empty(self.left) {
            return None;
        }
        let v = lowest(self.left);
        self.left = rest(self.left);
        Some(v)
    }
}

// Each member of the set in turn.
pub fn each(w: Set) -> InOrder
    ensures { members result.left ≡ members w }
{
    InOrder { left: w }
}

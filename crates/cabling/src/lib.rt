// The checks of a cabling, in the order of RULES 9.2: the first fault is the verdict.
#![tactic(auto)]

ghost use Rattle.std.specs.Prelude.{◌≡◌, ◌≤◌};
ghost use Rattle.finite.specs.Lowest.{lowest};
ghost use Rattle.nodes.specs.Limits.{max_nodes};
ghost use Rattle.network.specs.Table.{edge_of};
ghost use Rattle.cabling.specs.Cabling.{cabled, low_end, high_end};
ghost use Rattle.cabling.specs.Faults.{bad_ends, is_above, not_above, pair_fault, crowded, unreached, node_fault, link_fault, fault_of};

use nodes::{MAX_DEGREE, MAX_LINKS, MAX_NODES};
use refusal::Refusal;

// A cabling as it is lent: N, and pairs of bytes. Nothing is known of either before it is checked.
#[derive(Clone, Copy)]
pub struct Cabling<'a> {
    pub nodes: usize,
    pub pairs: &'a [u8],
}

impl<'a> Cabling<'a> {
    // The first end of pair p, 0 past the end.
    fn low_end(&self, p: usize) -> usize
        ensures { result ≡ low_end self.now.pairs.now p }
    {
        if p < self.pairs.len() {
            usize::from(slices::byte(self.pairs, 2 * p))
        } else {
            0
        }
    }

    // Its second end: a function of its own, since the rules speak of a and of b.
    fn high_end(&self, p: usize) -> usize
        ensures { result ≡ high_end self.now.pairs.now p }
    {
        if p < self.pairs.len() {
            usize::from(slices::byte(self.pairs, 2 * p + 1))
        } else {
            0
        }
    }

    // Is a ≥ b or b ≥ N, for pair p?
    fn bad_ends(&self, p: usize) -> bool
        ensures { result ≡ bad_ends (cabled self.now.nodes self.now.pairs.now) p }
    {
        let b = self.high_end(p);
        b <= self.low_end(p) || self.nodes <= b
    }

    // Is pair q above pair p, first by a, then by b?
    fn is_above(&self, p: usize, q: usize) -> bool
        ensures { result ≡ is_above self.now.pairs.now p q }
    {
        (self.low_end(p), self.high_end(p)) < (self.low_end(q), self.high_end(q))
    }

    // Is pair p not above the one before?
    fn not_above(&self, p: usize) -> bool
        ensures { result ≡ not_above self.now.pairs.now p }
    {
        p != 0 && !self.is_above(p - 1, p)
    }

    // The fault of pair p: its ends before its place.
    fn pair_fault(&self, p: usize) -> Result<(), Refusal>
        ensures { result ≡ pair_fault (cabled self.now.nodes self.now.pairs.now) p }
    {
        let ends = self.bad_ends(p);
        let order = self.not_above(p);
        if ends {
            return Err(Refusal::Ends(p));
        }
        if order {
            return Err(Refusal::Order(p));
        }
        Ok(())
    }

    // The fault of the first bad pair; where there is none, what is wrong at a node.
    fn link_fault(&self) -> Result<(), Refusal>
        requires { self.now.nodes ≤ max_nodes }
        ensures { result ≡ link_fault (cabled self.now.nodes self.now.pairs.now) }
    {
        // By its number, which is the place of its fault.
        for p in 0..self.pairs.len() / 2 {
            self.pair_fault(p)?;
        }
        node_fault(self.nodes, &network::table_of(self.pairs))
    }

    // The first fault of the cabling.
    pub fn fault(&self) -> Result<(), Refusal>
        ensures { result ≡ fault_of (cabled self.now.nodes self.now.pairs.now) }
    {
        if self.nodes < 2 || MAX_NODES < self.nodes {
            return Err(Refusal::Count);
        }
        if self.pairs.len() % 2 != 0 || 2 * MAX_LINKS < self.pairs.len() {
            return Err(Refusal::Shape);
        }
        self.link_fault()
    }
}

// The lowest of the first n nodes with too many links.
fn lowest_crowded(n: usize, t: &[u64]) -> Option<usize>
    ensures { result ≡ lowest n (crowded max_nodes (edge_of t.now)) }
{
    (0..n).find(|&v| MAX_DEGREE < network::degree(t, v))
}

// The lowest of the first n nodes that is not reached from node 0.
fn lowest_apart(n: usize, t: &[u64]) -> Option<usize>
    ensures { result ≡ lowest n (unreached max_nodes (edge_of t.now)) }
{
    let seen = network::flood(t, nodes::one(0));
    let v = nodes::lowest(nodes::difference(nodes::first(n), seen));
    if v < n { Some(v) } else { None }
}

// What is wrong at a node: too many links before no walk from node 0.
fn node_fault(n: usize, t: &[u64]) -> Result<(), Refusal>
    ensures { result ≡ node_fault max_nodes (edge_of t.now) n }
{
    if let Some(v) = lowest_crowded(n, t) {
        return Err(Refusal::Crowded(v));
    }
    if let Some(v) = lowest_apart(n, t) {
        return Err(Refusal::Apart(v));
    }
    Ok(())
}

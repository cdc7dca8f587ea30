// The labelling rule: labels 1, 2, .. in order, each to the least candidate of what remains.
#![tactic(auto)]

ghost use Rattle.std.specs.Prelude.{◌≡◌, true, min};
ghost use Rattle.finite.specs.Sum.{count};
ghost use Rattle.finite.specs.Sets.{has};
ghost use Rattle.nodes.specs.Limits.{max_nodes};
ghost use Rattle.nodes.specs.Members.{members};
ghost use Rattle.network.specs.Table.{edge_of};
ghost use Rattle.rule.specs.Labels.{labels_of};
ghost use Rattle.labels.specs.Links.{room_by, candidate_by, choice_by};
ghost use Rattle.labels.specs.Search.{better};

use network::Table;
use nodes::{MAX_NODES, Set};

// d(d-1) ≤ the sum over v's links of (the other end's degree minus 1).
pub fn room(t: &[u64], v: usize) -> bool
    ensures { result ≡ room_by max_nodes (edge_of t.now) v }
{
    let d = network::degree(t, v);
    let mut sum: usize = 0;
    for u in nodes::each(network::neighbours(t, v)) {
        sum += network::degree(t, u).saturating_sub(1);
    }
    d * d.saturating_sub(1) <= sum
}

// A candidate and its degree.
#[derive(Clone, Copy)]
struct Best {
    degree: usize,
    node: usize,
}

// The better of the best so far and v, a node of w: v where it is a candidate of a lower degree.
fn better_of(t: &Table, w: Set, v: usize, best: Option<Best>) -> Option<Best>
    requires { has (members w) v ≡ true }
    ensures { result ≡ better (λ u. count max_nodes (edge_of t.now u)) (candidate_by max_nodes (edge_of t.now) (has (members w))) v best }
{
    let d = network::degree(t, v);
    if best.is_some_and(|b| b.degree <= d) || !room(t, v) || network::splits(*t, w, v) {
        return best;
    }
    Some(Best { degree: d, node: v })
}

// The candidate of least degree, lowest number first, among the nodes of w; 64 where there is none, which `choice_by` names.
pub fn choice(t: &Table, w: Set) -> usize
    ensures { result ≡ choice_by max_nodes (edge_of t.now) (has (members w)) }
{
    let mut best = None;
    for v in nodes::each(w) {
        best = better_of(t, w, v, best);
    }
    best.map_or(MAX_NODES, |b| b.node)
}

// The labels of the first n nodes, 0 elsewhere. Of an n above 64 only 64 count.
pub fn labels(t: &[u64], n: usize) -> [u8; MAX_NODES]
    ensures { result ≡ labels_of max_nodes (edge_of t.now) (min n max_nodes) }
{
    let m = nodes::capped(n);
    let mut w = nodes::first(m);
    let mut rest = network::restrict(t, w);
    let mut out = [0u8; MAX_NODES];
    // By number: stage k gives label k + 1.
    for k in 0..m {
        let v = choice(&rest, w);
        // `as`: a label is 64 at most, and `try_from` would have an error that never comes.
        slices::put(&mut out, v, (k + 1) as u8);
        network::strike(&mut rest, v);
        w = nodes::without(w, v);
    }
    out
}

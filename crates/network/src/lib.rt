// A network as a table of each node's neighbours, made from byte pairs: keep some nodes, strike one out, flood, test connectedness, test for a cut node.
#![tactic(auto)]

ghost use Rattle.std.specs.Prelude.{◌≡◌, ℕ, ◌<◌, ◌^◌, length, get_or};
ghost use Rattle.finite.specs.Truth.{◌or◌};
ghost use Rattle.finite.specs.Sum.{count};
ghost use Rattle.finite.specs.Sets.{has, set_of};
ghost use Rattle.graph.specs.Network.{among};
ghost use Rattle.graph.specs.Reach.{reach, joined, splits};
ghost use Rattle.nodes.specs.Limits.{max_nodes};
ghost use Rattle.nodes.specs.Members.{members};
ghost use Rattle.network.specs.Table.{joins, neighbours_of, edge_of, table_of, remaining, struck_out};

use nodes::{MAX_NODES, Set};

// A row for each node: the set of its neighbours.
pub type Table = [u64; MAX_NODES];

// The neighbours of v: its row of the table, and none past the table's end.
pub fn neighbours(t: &[u64], v: usize) -> Set
    ensures { members result ≡ neighbours_of t.now v }
{
    slices::get(t, v, nodes::none())
}

// The number of v's links: the number of ones in its neighbour word.
pub fn degree(t: &[u64], v: usize) -> usize
    ensures { result ≡ count max_nodes (edge_of t.now v) }
{
    nodes::size(neighbours(t, v))
}

// Links a and b in the table.
fn link(t: &mut [u64], a: usize, b: usize)
    requires { length t.old ≡ max_nodes }
    ensures links { (x y : ℕ) → x < max_nodes → y < max_nodes → edge_of t.new x y ≡ joins a b x y or edge_of t.old x y }
    ensures words { (x : ℕ) → get_or t.old x 0 < 2 ^ max_nodes → get_or t.new x 0 < 2 ^ max_nodes }
{
    if a == b || MAX_NODES <= a || MAX_NODES <= b {
        return;
    }
    t[a] = nodes::with(neighbours(t, a), b);
    t[b] = nodes::with(neighbours(t, b), a);
}

// The neighbour table of a list of byte pairs.
pub fn table_of(pairs: &[u8]) -> Table
    ensures { result ≡ table_of pairs.now }
{
    let mut t = [0u64; MAX_NODES];
    for pair in pairs.chunks_exact(2) {
        link(&mut t, usize::from(pair[0]), usize::from(pair[1]));
    }
    t
}

// The row of u where only the nodes of w are kept.
fn kept_row(row: Set, w: Set, u: usize) -> Set
    ensures { members result ≡ set_of max_nodes (among (has (members w)) (λ a b. has (members row) b) u) }
{
    if nodes::has(w, u) {
        nodes::common(row, w)
    } else {
        nodes::none()
    }
}

// A copy of the table in which only the links between nodes of w are kept.
pub fn restrict(t: &[u64], w: Set) -> Table
    ensures { result ≡ remaining (has (members w)) (edge_of t.now) }
{
    let mut rest = [0u64; MAX_NODES];
    for (u, row) in rest.iter_mut().enumerate() {
        *row = kept_row(neighbours(t, u), w, u);
    }
    rest
}

// Strikes v out of the table: none of its links is left, in either direction.
pub fn strike(t: &mut [u64], v: usize)
    ensures { t.new ≡ struck_out v t.old }
{
    let others = nodes::without(nodes::first(MAX_NODES), v);
    for row in t.iter_mut() {
        *row = nodes::common(*row, others);
    }
    slices::put(t, v, nodes::none());
}

// The nodes that walks lead to from the nodes of start. No walk over one set's members: the front grows on the way.
pub fn flood(t: &[u64], start: Set) -> Set
    ensures { members result ≡ reach max_nodes (edge_of t.now) (has (members start)) }
{
    let mut seen = start;
    let mut front = start;
    while !nodes::is_empty(front) {
        let v = nodes::lowest(front);
        let found = nodes::difference(neighbours(t, v), seen);
        seen = nodes::union(seen, found);
        front = nodes::union(nodes::rest(front), found);
    }
    seen
}

// Do walks lead from the lowest node of w to each of its nodes?
pub fn joined(t: &[u64], w: Set) -> bool
    ensures { result ≡ joined max_nodes (edge_of t.now) (has (members w)) }
{
    let seen = flood(t, nodes::one(nodes::lowest(w)));
    nodes::is_empty(nodes::difference(w, seen))
}

// Does striking out v leave the other nodes of w unjoined? The test is made on a copy of the table (RULES 12.1).
pub fn splits(t: Table, w: Set, v: usize) -> bool
    ensures { result ≡ splits max_nodes (edge_of t) (has (members w)) v }
{
    let mut rest = t;
    strike(&mut rest, v);
    !joined(&rest, nodes::without(w, v))
}

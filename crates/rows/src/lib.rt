// The two tables of next-hop rows, each column found by one search backwards from its destination.
#![tactic(auto)]

ghost use Rattle.std.specs.Prelude.{◌≡◌, ℕ, ◌<◌, ◌≤◌, min, length, get_or};
ghost use Rattle.finite.specs.Lists.{tabulate};
ghost use Rattle.finite.specs.Sets.{has, set_of};
ghost use Rattle.nodes.specs.Limits.{max_nodes};
ghost use Rattle.nodes.specs.Members.{members};
ghost use Rattle.network.specs.Table.{edge_of};
ghost use Rattle.rows.specs.Tables.{table_size, tables_of};
ghost use Rattle.rows.specs.Steps.{ways_of, search_from, lead_of, entered_of, into_of, touches, Worth, Asking, Turned, half_of, round_of, rounds, search_at, OfWays, placed_of};

use network::Table;
use nodes::{MAX_NODES, NONE, Set};

// The bytes of a table with a row for each of 64 nodes.
pub const TABLE: usize = MAX_NODES * MAX_NODES;

// After so many rounds of a search no node joins.
const ROUNDS: usize = MAX_NODES + MAX_NODES;

// A row for each node.
fn row_of_each<F: Fn(usize) -> Set>(row: F) -> Table
    requires { F.IsAlwaysCallable row }
    ensures { (set : ℕ → ℕ) → ((v w : ℕ) → F.post row v w → w ≡ set v) → result ≡ tabulate max_nodes set }
{
    let mut t = [0u64; MAX_NODES];
    for (v, place) in t.iter_mut().enumerate() {
        *place = row(v);
    }
    t
}

// v joins the rows of the nodes of the set.
fn enter(from: &mut [u64], v: usize, set: Set)
    requires { length from.old ≡ max_nodes }
    ensures { from.new ≡ entered_of v (members set) from.old }
{
    for u in nodes::each(set) {
        let row = nodes::with(network::neighbours(from, u), v);
        slices::put(from, u, row);
    }
}

// The rows turned round: for each node those from which one of these hops leads to it. By number: a row is read as every row is, by its node.
fn into_of(ways: &[u64]) -> Table
    ensures { result ≡ into_of ways.now }
{
    let mut from = [0u64; MAX_NODES];
    for v in 0..MAX_NODES {
        enter(&mut from, v, network::neighbours(ways, v));
    }
    from
}

// The nodes in the row of some node of the set.
fn touching(from: &[u64], set: Set) -> Set
    ensures { members result ≡ set_of max_nodes (touches from.now (members set)) }
{
    let mut all = nodes::none();
    for u in nodes::each(set) {
        all = nodes::union(all, network::neighbours(from, u));
    }
    all
}

// For each node those that a hop from it rises or falls to (up, down), and those from which a hop rises or falls to it (over, under).
#[derive(Clone, Copy)]
struct Ways {
    up: Table,
    down: Table,
    over: Table,
    under: Table,
}

// One class of a search: the nodes that have joined, and the entry of each of them.
#[derive(Clone, Copy)]
struct Side {
    members: Set,
    entries: [u8; MAX_NODES],
}

// Both classes.
#[derive(Clone, Copy)]
struct Search {
    free: Side,
    falling: Side,
}

// Before the first round the destination alone has joined.
fn start(t: usize) -> Search
    requires { t < max_nodes }
    ensures { result ≡ search_from t }
{
    let mut entries = [NONE; MAX_NODES];
    // `as`: a node is below 64, and `try_from` would have an error that never comes.
    entries[t] = t as u8;
    let side = Side {
        members: nodes::one(t),
        entries,
    };
    Search {
        free: side,
        falling: side,
    }
}

impl Side {
    // One class of a round: every node worth asking that has not joined yet joins where a hop leads from it. All tests go by the sets free and falling.
    fn grow(&mut self, ways: &Ways, worth: Set, free: Set, falling: Set)
        requires { Worth ways.now.up ways.now.down (members free) (members falling) (members self.old.members) (has (members worth)) }
        ensures { self.new ≡ half_of ways.now.up ways.now.down (members free) (members falling) self.old }
    {
        for v in nodes::each(nodes::difference(worth, self.members)) {
            let u = ways.lead(v, free, falling);
            if u < MAX_NODES {
                // `as`: a node is below 64, and `try_from` would have an error that never comes.
                self.entries[v] = u as u8;
                self.members = nodes::with(self.members, v);
            }
        }
    }
}

impl Ways {
    fn of(t: &[u64], labels: &[u8]) -> Ways
        ensures { result ≡ ways_of (edge_of t.now) (λ u. get_or labels.now u 0) }
    {
        let up = row_of_each(|v| turns::rising(t, labels, v));
        let down = row_of_each(|v| turns::falling(t, labels, v));
        let over = into_of(&up);
        let under = into_of(&down);
        Ways {
            up,
            down,
            over,
            under,
        }
    }

    // The lowest node to which a hop from v leads: up into the free set, or down into the falling one. 64 where there is none, as `nodes::lowest` answers.
    fn lead(&self, v: usize, free: Set, falling: Set) -> usize
        ensures { result ≡ lead_of self.now.up self.now.down (members free) (members falling) v }
    {
        let rises = nodes::common(network::neighbours(&self.up, v), free);
        let falls = nodes::common(network::neighbours(&self.down, v), falling);
        nodes::lowest(nodes::union(rises, falls))
    }

    // One round, which asks those who can rise to what is newly free and those who can fall to what is newly falling.
    // What falls already can't rise: it has no free set to rise into.
    fn round(&self, rise: Set, fall: Set, s: Search) -> Search
        requires { Asking self.now.up self.now.down s (members rise) (members fall) }
        ensures { result ≡ round_of self.now.up self.now.down s }
    {
        let mut free = s.free;
        let mut falling = s.falling;
        free.grow(
            self,
            nodes::union(rise, fall),
            s.free.members,
            s.falling.members,
        );
        falling.grow(self, fall, nodes::none(), s.falling.members);
        Search { free, falling }
    }

    // Rounds until no node joins. Only a node with a hop to what joined last can join, so only those are asked.
    fn search(&self, t: usize) -> Search
        requires { (t < max_nodes) × Turned self.now }
        ensures { OfWays self.now (λ edge label. result ≡ search_at edge label t rounds) }
    {
        let mut s = start(t);
        let mut new_free = nodes::one(t);
        let mut new_falling = nodes::one(t);
        for _ in 0..ROUNDS {
            let rise = touching(&self.over, new_free);
            let fall = touching(&self.under, new_falling);
            let next = self.round(rise, fall, s);
            new_free = nodes::difference(next.free.members, s.free.members);
            new_falling = nodes::difference(next.falling.members, s.falling.members);
            if nodes::is_empty(nodes::union(new_free, new_falling)) {
                return s;
            }
            s = next;
        }
        s
    }
}

// Column d of a lent table with m columns becomes this one.
fn place(table: &mut [u8], column: &[u8], m: usize, d: usize)
    requires { (m ≤ max_nodes) × (d < m) × (length table.old ≡ table_size) × (length column.now ≡ max_nodes) }
    ensures { table.new ≡ placed_of m d column.now table.old }
{
    for (v, entry) in slices::front(column, m).iter().enumerate() {
        table[v * m + d] = *entry;
    }
}

// The rows of both classes, one after the other, 0 behind the last.
#[derive(Clone, Copy)]
pub struct Tables {
    pub free: [u8; TABLE],
    pub falling: [u8; TABLE],
}

// The rows of the first n nodes; of an n above 64 only 64 count.
pub fn tables_of(t: &[u64], labels: &[u8], n: usize) -> Tables
    ensures { result ≡ tables_of max_nodes (min n max_nodes) (edge_of t.now) (λ u. get_or labels.now u 0) }
{
    let m = nodes::capped(n);
    let ways = Ways::of(t, labels);
    let mut free = [0u8; TABLE];
    let mut falling = [0u8; TABLE];
    // By number: d is a destination, and its column.
    for d in 0..m {
        let s = ways.search(d);
        place(&mut free, &s.free.entries, m, d);
        place(&mut falling, &s.falling.entries, m, d);
    }
    Tables { free, falling }
}

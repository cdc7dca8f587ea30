// Labels on a network: the neighbours that a hop rises or falls to, the total of turns, and how many of them are prohibited.
#![tactic(auto)]

ghost use Rattle.std.specs.Prelude.{◌≡◌, Bool, ℕ, ◌-◌, ◌*◌, ◌/◌, ◌≤◌, get_or};
ghost use Rattle.finite.specs.Truth.{◌&◌};
ghost use Rattle.finite.specs.Sum.{sum_to};
ghost use Rattle.finite.specs.Sets.{has, set_of};
ghost use Rattle.lawful.specs.Turn.{rises, falls};
ghost use Rattle.nodes.specs.Limits.{max_nodes};
ghost use Rattle.nodes.specs.Members.{members};
ghost use Rattle.network.specs.Table.{edge_of};
ghost use Rattle.turns.specs.Turns.{all_turns, prohibited_turns};

use nodes::{MAX_NODES, Set};

// The members of w that pass the test.
fn those<F: Fn(usize) -> bool>(w: Set, passes: F) -> Set
    requires { F.IsAlwaysCallable passes }
    ensures { (test : ℕ → Bool) → ((u : ℕ) (b : Bool) → F.post passes u b → b ≡ test u) → members result ≡ set_of max_nodes (λ a. has (members w) a & test a) }
{
    let mut found = nodes::none();
    for u in nodes::each(w) {
        if passes(u) {
            found = nodes::with(found, u);
        }
    }
    found
}

// The neighbours of v with a higher label: a hop to one of them rises.
pub fn rising(t: &[u64], labels: &[u8], v: usize) -> Set
    ensures { members result ≡ set_of max_nodes (rises (edge_of t.now) (λ u. get_or labels.now u 0) v) }
{
    those(
        network::neighbours(t, v),
        |u| slices::byte(labels, v) < slices::byte(labels, u),
    )
}

// The neighbours of v with a lower label: a hop to one of them falls.
pub fn falling(t: &[u64], labels: &[u8], v: usize) -> Set
    ensures { members result ≡ set_of max_nodes (falls (edge_of t.now) (λ u. get_or labels.now u 0) v) }
{
    those(
        network::neighbours(t, v),
        |u| slices::byte(labels, u) < slices::byte(labels, v),
    )
}

// How many pairs d nodes make.
fn choose_two(d: usize) -> usize
    requires { d ≤ max_nodes }
    ensures { result ≡ d * (d - 1) / 2 }
{
    if d == 0 { 0 } else { d * (d - 1) / 2 }
}

// The sum of d(d-1)/2 over all nodes, d being the number of links that is counted at each.
fn turns_at<F: Fn(usize) -> usize>(links: F) -> usize
    requires callable { F.IsAlwaysCallable links }
    requires few { (v d : ℕ) → F.post links v d → d ≤ max_nodes }
    ensures { (count : ℕ → ℕ) → ((v d : ℕ) → F.post links v d → d ≡ count v) → result ≡ sum_to max_nodes (λ v. count v * (count v - 1) / 2) }
{
    let mut sum: usize = 0;
    // By number: v is the node that is asked.
    for v in 0..MAX_NODES {
        sum += choose_two(links(v));
    }
    sum
}

// RULES 3.3: "T is the number of turns: the sum over all nodes of d(d-1)/2".
pub fn total(t: &[u64]) -> usize
    ensures { result ≡ all_turns max_nodes (edge_of t.now) }
{
    turns_at(|v| network::degree(t, v))
}

// RULES 4.4: "W is the number of prohibited turns.": at each node the pairs of neighbours with higher labels.
pub fn prohibited(t: &[u64], labels: &[u8]) -> usize
    ensures { result ≡ prohibited_turns max_nodes (edge_of t.now) (λ u. get_or labels.now u 0) }
{
    turns_at(|v| nodes::size(rising(t, labels, v)))
}

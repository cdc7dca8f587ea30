// The route call: under read's checks of the image, the nodes from a source to a destination, each next one found by hop.
#![tactic(auto)]

ghost use Rattle.std.specs.Prelude.{◌≡◌, List, ℕ, ◌+◌, ◌≤◌, ◌<◌, length};
ghost use Rattle.nodes.specs.Limits.{max_nodes};
ghost use Rattle.laid.specs.Laid.{page};
ghost use Rattle.laid.specs.Lays.{Lays};
ghost use Rattle.laid.specs.Lent.{page_of};
ghost use Rattle.results.specs.Written.{Writes};
ghost use Rattle.route.specs.Follow.{followed};
ghost use Rattle.route.specs.Route.{route_fault, route_bytes};

use fabric::Fabric;
use hops::{Hop, Tables};
use laid::Page;
use nodes::MAX_NODES;
use refusal::Refusal;

// A route is followed for 2 N hops at the most, and has one node more than hops.
const ROOM: usize = 2 * MAX_NODES + 1;

// The source, and the nodes that hop leads over.
fn followed(f: &Fabric, s: u8, t: u8, out: &mut Page<'_>)
    requires { f.now.nodes ≤ max_nodes }
    ensures same_buffer { out.new.bytes.ghost_name ≡ out.old.bytes.ghost_name }
    ensures laid { (b : List ℕ) → page_of out.old ≡ page b 0 → f.now.nodes + f.now.nodes < length b → Lays b (page_of out.new) (followed f.now s t) }
{
    // Lent field by field, here and in `findings`: a function that lends them would need a clause for each.
    let tables = Tables {
        nodes: f.nodes,
        labels: &f.labels,
        free: &f.free,
        falling: &f.falling,
    };
    let mut at = Hop { node: s, class: 0 };
    // k counts nodes: 2 N hops and one node more at the most, whatever the tables say.
    for k in 0..2 * f.nodes + 1 {
        out.byte(at.node);
        if at.node == t {
            return;
        }
        let asked = tables.within(usize::from(at.node), usize::from(at.class), usize::from(t));
        let Ok(Some(next)) = asked else {
            return;
        };
        at = next;
    }
}

// Writes the nodes of the route from a source to a destination, source first, under the checks 1 to 8, 10 and 9.
pub fn route(
    image: &[u8],
    source: usize,
    destination: usize,
    buffer: &mut [u8],
) -> Result<usize, Refusal>
    ensures { Writes (route_fault image.now source destination) (route_bytes image.now source destination) buffer.old result buffer.new }
{
    let f = image::open(image)?;
    if f.nodes <= source || f.nodes <= destination {
        return Err(Refusal::Unknown(0));
    }
    let mut nodes = [0u8; ROOM];
    let mut out = Page::new(&mut nodes);
    // `as`: both are nodes, and `try_from` would have an error that never comes.
    followed(&f, source as u8, destination as u8, &mut out);
    results::place(out.laid(), buffer)
}

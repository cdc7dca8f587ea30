// The fabric: what a cabling becomes. Its labels by the rule and its two tables of next hops, made once and handed on by value.
#![tactic(auto)]

ghost use Rattle.std.specs.Prelude.{◌≡◌};
ghost use Rattle.cabling.specs.Cabling.{cabled, Good};
ghost use Rattle.fabric.specs.Fabric.{fabric_of, bare_fabric, made_of};

use cabling::Cabling;
use nodes::MAX_NODES;
use refusal::Refusal;
use rows::TABLE;

// Labels and rows stand at the front of their arrays, zeros behind: memory is fixed, so the arrays are of the largest size.
#[derive(Clone, Copy)]
pub struct Fabric {
    pub nodes: usize,
    pub labels: [u8; MAX_NODES],
    pub free: [u8; TABLE],
    pub falling: [u8; TABLE],
}

// The fabric of no nodes, for who holds one before any is made.
pub fn bare() -> Fabric
    ensures { result ≡ bare_fabric }
{
    let labels = [0u8; MAX_NODES];
    let rows = [0u8; TABLE];
    Fabric {
        nodes: 0,
        labels,
        free: rows,
        falling: rows,
    }
}

// The fabric of a good cabling.
fn good(cabling: &Cabling) -> Fabric
    requires { Good (cabled cabling.now.nodes cabling.now.pairs.now) }
    ensures { result ≡ fabric_of (cabled cabling.now.nodes cabling.now.pairs.now) }
{
    let t = network::table_of(cabling.pairs);
    let labels = labels::labels(&t, cabling.nodes);
    let tables = rows::tables_of(&t, &labels, cabling.nodes);
    let free = tables.free;
    let falling = tables.falling;
    Fabric {
        nodes: cabling.nodes,
        labels,
        free,
        falling,
    }
}

// The fabric of a cabling, or its first fault.
pub fn make(cabling: &Cabling) -> Result<Fabric, Refusal>
    ensures { result ≡ made_of (cabled cabling.now.nodes cabling.now.pairs.now) }
{
    cabling.fault()?;
    Ok(good(cabling))
}

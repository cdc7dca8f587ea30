// The networks worked by hand, as one constant table: the table of the crate `by_hand`, which proves each of its entries right. The program runs them all, and
// those of RULES 11.2, and prints what it found.
#![tactic(auto)]

ghost use Rattle.std.specs.Prelude.{◌≡◌, map};
ghost use Rattle.by_hand.specs.Networks.{worked};
ghost use Rattle.worked.specs.Rows.{row_of, row_in};

use cabling::Cabling;
use findings::networks::{Asked, Network};

const WORKED: [Network<'static>; 7] = [
    Network {
        cabling: Cabling {
            nodes: 2,
            pairs: &[0, 1],
        },
        labels: &[1, 2],
        turns: 0,
        prohibited: 0,
        first: 0,
        free: &[0, 1, 0, 1],
        falling: &[0, 255, 0, 1],
        hops: &[],
        links: &[1, 1, 1, 0, 8, 0, 4, 0, 2, 0, 0, 1],
        full: &[
            1, 4, 1, 0, 26, 0, 4, 0, 2, 0, 30, 0, 2, 0, 3, 0, 32, 0, 4, 0, 4, 0, 36, 0, 4, 0, 2, 0,
            0, 1, 1, 2, 0, 1, 0, 1, 0, 255, 0, 1,
        ],
        sheet: b"2\n0 1\n",
        loads: &[&[0, 1], &[0, 0]],
    },
    Network {
        cabling: Cabling {
            nodes: 3,
            pairs: &[0, 1, 0, 2, 1, 2],
        },
        labels: &[1, 2, 3],
        turns: 3,
        prohibited: 1,
        first: 0,
        free: &[0, 1, 2, 0, 1, 2, 0, 1, 2],
        falling: &[0, 255, 255, 0, 1, 255, 0, 1, 2],
        hops: &[],
        links: &[],
        full: &[],
        sheet: b"",
        loads: &[],
    },
    Network {
        cabling: Cabling {
            nodes: 3,
            pairs: &[0, 1, 1, 2],
        },
        labels: &[1, 2, 3],
        turns: 1,
        prohibited: 0,
        first: 0,
        free: &[0, 1, 1, 0, 1, 2, 1, 1, 2],
        falling: &[0, 255, 255, 0, 1, 255, 1, 1, 2],
        hops: &[],
        links: &[],
        full: &[],
        sheet: b"",
        loads: &[],
    },
    Network {
        cabling: Cabling {
            nodes: 4,
            pairs: &[0, 1, 0, 3, 1, 2, 2, 3],
        },
        labels: &[1, 2, 3, 4],
        turns: 4,
        prohibited: 1,
        first: 0,
        free: &[0, 1, 1, 3, 0, 1, 2, 2, 1, 1, 2, 3, 0, 2, 2, 3],
        falling: &[0, 255, 255, 255, 0, 1, 255, 255, 1, 1, 2, 255, 0, 2, 2, 3],
        hops: &[
            Asked {
                node: 0,
                class: 0,
                destination: 2,
            },
            Asked {
                node: 2,
                class: 0,
                destination: 0,
            },
            Asked {
                node: 1,
                class: 1,
                destination: 0,
            },
            Asked {
                node: 0,
                class: 1,
                destination: 2,
            },
            Asked {
                node: 3,
                class: 1,
                destination: 3,
            },
        ],
        links: &[],
        full: &[],
        sheet: b"4\n0 1\n0 3\n1 2\n2 3\n",
        loads: &[&[0, 2, 1, 3, 2, 0, 3, 1]],
    },
    Network {
        cabling: Cabling {
            nodes: 4,
            pairs: &[0, 1, 0, 2, 0, 3],
        },
        labels: &[3, 1, 2, 4],
        turns: 3,
        prohibited: 0,
        first: 1,
        free: &[0, 1, 2, 3, 0, 1, 0, 0, 0, 0, 2, 0, 0, 0, 0, 3],
        falling: &[0, 1, 2, 255, 255, 1, 255, 255, 255, 255, 2, 255, 0, 0, 0, 3],
        hops: &[
            Asked {
                node: 1,
                class: 0,
                destination: 3,
            },
            Asked {
                node: 0,
                class: 0,
                destination: 3,
            },
        ],
        links: &[],
        full: &[],
        sheet: b"",
        loads: &[],
    },
    Network {
        cabling: Cabling {
            nodes: 4,
            pairs: &[0, 1, 0, 2, 0, 3, 1, 2, 1, 3, 2, 3],
        },
        labels: &[1, 2, 3, 4],
        turns: 12,
        prohibited: 4,
        first: 0,
        free: &[0, 1, 2, 3, 0, 1, 2, 3, 0, 1, 2, 3, 0, 1, 2, 3],
        falling: &[0, 255, 255, 255, 0, 1, 255, 255, 0, 1, 2, 255, 0, 1, 2, 3],
        hops: &[],
        links: &[],
        full: &[],
        sheet: b"",
        loads: &[],
    },
    Network {
        cabling: Cabling {
            nodes: 26,
            pairs: &[
                0, 2, 0, 3, 0, 4, 0, 5, 1, 2, 1, 3, 1, 4, 1, 5, 2, 6, 3, 11, 4, 16, 5, 21, 6, 7, 6,
                8, 6, 9, 6, 10, 7, 8, 7, 9, 7, 10, 8, 9, 8, 10, 9, 10, 11, 12, 11, 13, 11, 14, 11,
                15, 12, 13, 12, 14, 12, 15, 13, 14, 13, 15, 14, 15, 16, 17, 16, 18, 16, 19, 16, 20,
                17, 18, 17, 19, 17, 20, 18, 19, 18, 20, 19, 20, 21, 22, 21, 23, 21, 24, 21, 25, 22,
                23, 22, 24, 22, 25, 23, 24, 23, 25, 24, 25,
            ],
        },
        labels: &[
            7, 20, 6, 13, 19, 21, 5, 1, 2, 3, 4, 12, 8, 9, 10, 11, 18, 14, 15, 16, 17, 22, 23, 24,
            25, 26,
        ],
        turns: 160,
        prohibited: 44,
        first: 7,
        free: &[],
        falling: &[],
        hops: &[],
        links: &[],
        full: &[],
        sheet: b"",
        loads: &[],
    },
];

// The whole table.
fn table() -> [Network<'static>; 7]
    ensures { map row_of result ≡ map row_in worked }
{
    WORKED
}

fn main() {
    findings::networks::tell_all(&table());
    findings::cases::tell_all();
}

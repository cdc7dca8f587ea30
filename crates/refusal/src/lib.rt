// The refusals of every call: a case for each fault, with its number and place in RULES 9.1.
#![tactic(auto)]

ghost use Rattle.std.specs.Prelude.{◌≡◌};
ghost use Rattle.refusal.specs.Number.{number_of, place_of};

#[derive(Clone, Copy)]
pub enum Refusal {
    // 1: the contents break the rules.
    Contents,
    // 2: not 2 to 64 nodes.
    Count,
    // 3: the second byte of kind 1, or the length of the pairs.
    Shape,
    // 4: this pair's ends: a ≥ b or b ≥ N.
    Ends(usize),
    // 5: this pair is not above the one before.
    Order(usize),
    // 6: more than 16 links at this node, the lowest such.
    Crowded(usize),
    // 7: not connected; this is the lowest node not reached from 0.
    Apart(usize),
    // 8: labels or rows differ from what the rules give.
    Differs,
    // 9: the result is longer than the buffer.
    Short,
    // 10: a node, destination, class, table size or message that is not there; the pair's place for start, else 0.
    Unknown(usize),
    // 11: the message list is odd or too long.
    Messages,
    // 12: this line is not one of a sheet, the first such.
    Line(usize),
}

impl Refusal {
    // The number of its row.
    pub fn number(self) -> usize
        ensures { result ≡ number_of self }
    {
        match self {
            Refusal::Contents => 1,
            Refusal::Count => 2,
            Refusal::Shape => 3,
            Refusal::Ends(_) => 4,
            Refusal::Order(_) => 5,
            Refusal::Crowded(_) => 6,
            Refusal::Apart(_) => 7,
            Refusal::Differs => 8,
            Refusal::Short => 9,
            Refusal::Unknown(_) => 10,
            Refusal::Messages => 11,
            Refusal::Line(_) => 12,
        }
    }

    // The place of the fault, 0 where its row has none.
    pub fn place(self) -> usize
        ensures { result ≡ place_of self }
    {
        match self {
            Refusal::Ends(p) => p,
            Refusal::Order(p) => p,
            Refusal::Crowded(v) => v,
            Refusal::Apart(v) => v,
            Refusal::Unknown(p) => p,
            Refusal::Line(i) => i,
            _ => 0,
        }
    }
}

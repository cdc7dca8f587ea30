// The seed of Drain, which wraps at 32 bits, and where it says to look.
#![tactic(auto)]

ghost use Rattle.std.specs.Prelude.{◌≡◌, ◌*◌, ◌%◌, ◌^◌};
ghost use Rattle.seeds.specs.Seed.{next_seed, look_at};

// The term where the last binary digit of left is 1, else 0.
fn picked(term: u32, left: u32) -> u32
    ensures { result ≡ left % 2 * term }
{
    if left % 2 == 1 { term } else { 0 }
}

// The product modulo 2 ^ 32, by doubling and the supplied wrapping sum: docs/RULES.md (12.1) asks for that form.
pub fn wrapping_mul(a: u32, b: u32) -> u32
    ensures { result ≡ a * b % 2 ^ 32 }
{
    let mut sum: u32 = 0;
    let mut term = a;
    let mut left = b;
    while left > 0 {
        sum = sum.wrapping_add(picked(term, left));
        term = term.wrapping_add(term);
        left = left / 2;
    }
    sum
}

// The seed of the next move.
pub fn next_seed(seed: u32) -> u32
    ensures { result ≡ next_seed seed }
{
    wrapping_mul(1664525, seed).wrapping_add(1013904223)
}

// Where to look first; 0 where there is no message, as `look_at` says. (`as`: the library has no `usize: From<u32>`.)
pub fn look(seed: u32, messages: usize) -> usize
    ensures { result ≡ look_at seed messages }
{
    if messages == 0 {
        return 0;
    }
    (seed >> 16) as usize % messages
}

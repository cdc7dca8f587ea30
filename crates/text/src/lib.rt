// Numbers in decimal: printed, and read from the front of a text.
#![tactic(auto)]

ghost use Rattle.std.specs.Prelude.{◌≡◌};
ghost use Rattle.laid.specs.Laid.{behind};
ghost use Rattle.laid.specs.Lent.{page_of};
ghost use Rattle.text.specs.Text.{decimal_of, number_in};

use laid::Page;

// A number in decimal, laid behind what is there.
pub fn number(out: &mut Page<'_>, n: usize)
    ensures same_buffer { out.new.bytes.ghost_name ≡ out.old.bytes.ghost_name }
    ensures laid { page_of out.new ≡ behind (page_of out.old) (decimal_of n) }
{
    let mut digits = [0u8; 20];
    // `as`: the library has no `u64: From<usize>`.
    let k = io::decimal(n as u64, &mut digits);
    out.put(&digits[..k]);
}

// The number that a text begins with: digits are read until what they make is 100 or more. 0 where there is none, as `number_in` says.
pub fn number_in(text: &[u8]) -> usize
    ensures { result ≡ number_in text.now }
{
    let mut n = 0;
    for &x in text {
        if n >= 100 || !x.is_ascii_digit() {
            return n;
        }
        n = 10 * n + usize::from(x - b'0');
    }
    n
}

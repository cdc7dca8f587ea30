// Lent slices, read and stored into at every place: past the end stands what the caller says, for a byte 0, and a store changes nothing.
#![tactic(auto)]

ghost use Rattle.std.specs.Prelude.{◌≡◌, take, drop, get_or, set};
ghost use Rattle.finite.specs.Lists.{alike};

// What stands at place i, and the value given past the end.
pub fn get<T: Copy>(s: &[T], i: usize, otherwise: T) -> T
    ensures { result ≡ get_or s.now i otherwise }
{
    s.get(i).copied().unwrap_or(otherwise)
}

// The byte at place i, 0 past the end.
pub fn byte(s: &[u8], i: usize) -> u8
    ensures { result ≡ get_or s.now i 0 }
{
    get(s, i, 0)
}

// Puts x at place i, where there is such a place. (`get_mut` of the library does not say what the slice ends as.)
pub fn put<T: Copy>(s: &mut [T], i: usize, x: T)
    ensures { s.new ≡ set s.old i x }
{
    if i < s.len() {
        s[i] = x;
    }
}

// The first n bytes; all where there are fewer.
pub fn front(s: &[u8], n: usize) -> &[u8]
    ensures { result.now ≡ take n s.now }
{
    &s[..n.min(s.len())]
}

// The bytes behind the first n; none where there are no more.
pub fn rest(s: &[u8], n: usize) -> &[u8]
    ensures { result.now ≡ drop n s.now }
{
    &s[n.min(s.len())..]
}

// Are the two the same bytes?
pub fn same_bytes(a: &[u8], b: &[u8]) -> bool
    ensures { result ≡ alike a.now b.now }
{
    a == b
}

// A slice in two parts, for every count (SCOPE, "PAM").
#![tactic(auto)]

ghost use Rattle.std.specs.Prelude.{◌≡◌, take, drop};

// What follows the first k bytes, empty where there are none. Rules out: the first k bytes themselves; everything where there are fewer.
// Kept: &s[..0], not &[]: its address is that of s, so that there is none to choose at every line of a header.
pub fn tail_of(s: &[u8], k: usize) -> &[u8]
    ensures { result.now ≡ drop k s.now }
{
    s.get(k..).unwrap_or(&s[..0])
}

// The first k bytes, all where there are fewer. Rules out: all where there are more; what follows them.
pub fn head_of(s: &[u8], k: usize) -> &[u8]
    ensures { result.now ≡ take k s.now }
{
    s.get(..k).unwrap_or(s)
}

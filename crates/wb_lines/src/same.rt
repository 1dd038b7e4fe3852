//! Whether two texts are the same.

ghost use Rattle.std.specs.Prelude.{◌≡◌};
ghost use Rattle.std.specs.Str.{bytes_eq};

fn have_same_bytes(one: &[u8], other: &[u8]) -> bool
    ensures { result ≡ bytes_eq one.now other.now }
{
    one == other
}

/// Whether two texts are the same. Names of a script often begin alike and differ in their length or their last byte, so the length and the
/// last byte are compared first.
pub fn are_same(one: &[u8], other: &[u8]) -> bool
    ensures { result ≡ bytes_eq one.now other.now }
{
    let length = one.len();
    if length != other.len() {
        return false;
    }
    if length > 0 && one[length - 1] != other[length - 1] {
        return false;
    }
    have_same_bytes(one, other)
}

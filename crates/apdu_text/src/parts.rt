// Parts of a slice, as far as it goes.
ghost use Rattle.std.specs.Prelude.{◌≡◌, take, drop};

// The first `n` elements, or all where there are fewer.
pub(crate) fn front<T>(s: &[T], n: usize) -> &[T]
    ensures { result.now ≡ take n s.now }
{
    s.get(..n).unwrap_or(s)
}

// The elements from place `n` on, or none where there are fewer.
pub(crate) fn behind<T>(s: &[T], n: usize) -> &[T]
    ensures { result.now ≡ drop n s.now }
{
    s.get(n..).unwrap_or(&[])
}

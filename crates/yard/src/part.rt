//! A part of a list.

ghost use Rattle.std.specs.Prelude.{◌≡◌, slice_range};

/// The entries from one place to before another; what would lie past the end of the list is left out.
pub fn part<T>(list: &[T], first: usize, end: usize) -> &[T]
    ensures { result.now ≡ slice_range list.now first end }
{
    let end = end.min(list.len());
    let first = first.min(end);
    &list[first..end]
}

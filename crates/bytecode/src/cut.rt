//! Parts of lists.

ghost use Rattle.std.specs.Prelude.{◌≡◌, take, drop};

/// `count` items from a place on, as far as there are any.
pub(crate) fn cut<T>(all: &[T], from: usize, count: usize) -> &[T]
    ensures { result.now ≡ take count (drop from all.now) }
{
    if from >= all.len() {
        return &[];
    }
    let rest = &all[from..];
    if count < rest.len() {
        &rest[..count]
    } else {
        rest
    }
}

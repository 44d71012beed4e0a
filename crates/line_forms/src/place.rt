//! An item in its place.

ghost use Rattle.std.specs.Prelude.{◌≡◌};
ghost use Rattle.line_forms.specs.LineMeaning.{item_if};

/// Puts what was read into its place; whether there was anything.
pub fn placed<I: Drop>(read: Option<I>, item: &mut I) -> bool
    ensures { item_if item.new result ≡ read }
{
    match read {
        Some(read) => {
            *item = read;
            true
        }
        None => false,
    }
}

//! How many bytes a length field has.

ghost use Rattle.std.specs.Prelude.{◌≡◌};
ghost use Rattle.pl_stages.specs.LengthFraming.{is_width};

/// Whether a length field may have so many bytes: two or four.
pub(crate) fn is_width(width: usize) -> bool
    ensures { result ≡ is_width width }
{
    width == 2 || width == 4
}

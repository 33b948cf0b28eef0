//! Names of handlers and of groups.

ghost use Rattle.std.specs.Prelude.{◌≡◌, IfOk};
ghost use Rattle.std.specs.Str.{bytes_eq};
ghost use Rattle.pl_build.specs.Names.{is_name};

use crate::limits::MAX_NAME_LENGTH;
use pl_event::ByteString;
use std::alloc::{AllocError, Global};

/// Whether a handler or a group may have this name.
pub(crate) fn is_name(name: &str) -> bool
    ensures { result ≡ is_name name.now }
{
    1 <= name.len() && name.len() <= MAX_NAME_LENGTH
}

/// Whether a name that is kept has this text.
pub(crate) fn has_text(kept: &ByteString, name: &str) -> bool
    ensures { result ≡ bytes_eq kept.now name.now }
{
    kept.as_slice() == name.as_bytes()
}

/// A copy of a name, to keep.
pub(crate) fn kept(alloc: Global, name: &str) -> Result<ByteString, AllocError>
    ensures { IfOk result (λ kept. kept ≡ name.now) }
{
    ByteString::from_slice(alloc, name.as_bytes())
}

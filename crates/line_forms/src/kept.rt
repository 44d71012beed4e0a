//! A line that is kept.

ghost use Rattle.std.specs.Prelude.{◌≡◌, IfOk};

use cca_base::List;
use std::alloc::{AllocError, Global};

/// The same bytes. The error is out of memory.
pub fn kept_line(alloc: Global, line: &[u8]) -> Result<List<u8>, AllocError>
    ensures { IfOk result (λ bytes. bytes ≡ line.now) }
{
    Ok(List::of(Vec::from_slice(alloc, line)?))
}

//! Numbers in a row.

ghost use Rattle.std.specs.Prelude.{◌≡◌, ◌≤◌, IfOk};
ghost use Rattle.cca_base.specs.Relations.{numbers_below};
ghost use Rattle.cca_base.specs.declared.limits.TheConstants.{MAX_ROWS};

use std::alloc::{AllocError, Global};

/// The numbers below the count, rising.
pub fn numbers_below(alloc: Global, count: usize) -> Result<Vec<u16>, AllocError>
    requires { count ≤ MAX_ROWS }
    ensures { IfOk result (λ v. v.items ≡ numbers_below count) }
{
    let mut numbers = Vec::new(alloc);
    for c in 0..count {
        numbers.push(c as u16)?;
    }
    Ok(numbers)
}

//! The found prime implicants in cube order, by keys in a set.

ghost use Rattle.std.specs.Prelude.{◌≡◌, Bool, ◌&&◌, ◌++◌, ◌∷◌, [], IfOk, OnOk, filter, length, take};
ghost use Rattle.std.specs.List.{list_all};
ghost use Rattle.std.specs.Option.{is_some};
ghost use Rattle.prime_implicants.specs.Found.{Key, all_keys, key_from, key_of};

use std::alloc::{AllocError, Global};
use std::collections::BTreeSet;

/// The cubes that were found, as keys: how many pairs, and then each subject with its value, so that the order of the
/// keys is the order of cubes.
pub type Found = BTreeSet<Vec<usize>>;

/// Adds a key, unless it is there.
pub fn add_key(found: &mut Found, key: Vec<usize>) -> Result<(), AllocError>
    ensures { OnOk result ((t : Key → Bool)
        → all_keys t found.new.keys ≡ (all_keys t found.old.keys && t key.items)) }
{
    found.insert(key)?;
    Ok(())
}

/// The key of the subjects that have a value.
pub fn make_key(alloc: Global, partial: &[Option<u8>]) -> Result<Vec<usize>, AllocError>
    ensures { IfOk result (λ k. k.items ≡ key_of partial.now) }
{
    let mut key = Vec::new(alloc);
    key.push(count_of(partial))?;
    for i in 0..partial.len() {
        push_pair(&mut key, i, partial[i])?;
    }
    Ok(key)
}

fn count_of(partial: &[Option<u8>]) -> usize
    ensures { result ≡ length (filter (λ o. is_some o) partial.now) }
{
    partial.iter().filter(|o| o.is_some()).count()
}

fn push_pair(key: &mut Vec<usize>, i: usize, value: Option<u8>) -> Result<(), AllocError>
    ensures { OnOk result (key.new.items ≡ key.old.items ++ key_from i (value ∷ [])) }
{
    if let Some(v) = value {
        key.push(i)?;
        key.push(usize::from(v))?;
    }
    Ok(())
}

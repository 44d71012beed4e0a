//! Names of at most 32 bytes, held in place.

ghost use Rattle.std.specs.Prelude.{◌≡◌, ◌≤◌, length, nat_eq};
ghost use Rattle.std.specs.Cmp.{partial_equiv_from_equiv};
ghost use Rattle.std.specs.Cmp.Rules.{hashing};
ghost use Rattle.std.specs.Hash as fed;
ghost use Rattle.std.specs.Cmp.Lexicographic.{pointwise, nat_list_eq_equiv};
ghost use Rattle.std.proofs.Common.{rules};
ghost use Rattle.cca_base.specs.declared.limits.TheConstants.{MAX_NAME};

use crate::limits::MAX_NAME;
use std::hash::{Hash, Hasher};
use std::marker::Model;

/// A name of at most `MAX_NAME` bytes, which contracts see as those bytes.
#[derive(Clone, Copy, Debug)]
pub struct Name {
    len: u8,
    bytes: [u8; MAX_NAME],
}

impl Model for Name {
    ghost use Rattle.std.specs.Prelude.{◌≡◌, ◌≤◌, ◌++◌, ◌-◌, List, ℕ, length, take, replicate};
    ghost use Rattle.cca_base.specs.declared.limits.TheConstants.{MAX_NAME};
    ghost use Rattle.cca_base.specs.Padded.{IsPadded, inverse_of_padded};

    ghost Value = { List ℕ };

    ghost view = { λ n. take n.len n.bytes };

    ghost invariant = { λ n. IsPadded n.len n.bytes };

    ghost inverse = { λ text. record { len = length text; bytes = text ++ replicate (MAX_NAME - length text) 0 } };

    ghost inverse_ok = { λ n h. inverse_of_padded n.len n.bytes h (λ len bytes. record { len = len; bytes = bytes }) };
}

impl Name {
    /// The name with these bytes. It takes no memory.
    pub fn of(text: &[u8]) -> Name
        requires { length text.now ≤ MAX_NAME }
        ensures { result ≡ text.now }
    {
        let mut bytes = [0; MAX_NAME];
        bytes[..text.len()].copy_from_slice(text);
        Name {
            len: text.len() as u8,
            bytes,
        }
    }

    /// The name's bytes.
    pub fn bytes(&self) -> &[u8]
        ensures { result.now ≡ self.now }
    {
        &self.bytes[..self.len as usize]
    }
}

impl PartialEq for Name {
    ghost eq = { pointwise nat_eq };

    ghost laws = { partial_equiv_from_equiv nat_list_eq_equiv };

    fn eq(&self, other: &Name) -> bool {
        self.bytes() == other.bytes()
    }
}

impl Eq for Name {
    ghost laws = { nat_list_eq_equiv };
}

impl Hash for Name {
    ghost hash_input = { fed.slice fed.u8 };

    ghost respects_eq = { Prim.search (hashing, rules) };

    fn hash<H: Hasher>(&self, state: &mut H) {
        self.bytes().hash(state);
    }
}

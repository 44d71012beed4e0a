//! Chains of components, and their names.

ghost use Rattle.std.specs.Prelude.{◌≡◌, IfOk};
ghost use Rattle.trial_maker.specs.Chains.{link_at, links, mode_name};

use std::alloc::{AllocError, Global};
use std::fmt;

/// How many chains of components there are.
pub const CHAINS: u64 = 8;

/// How many components a chain has.
pub const PLACES: u64 = 6;

/// How many components there are.
pub const LINKS: u64 = 48;

/// How many modes a component has beside the broken one.
pub const MODES: u64 = 3;

/// A component: the number of its chain, and its place there.
#[derive(Clone, Copy)]
pub struct Link {
    pub chain: u64,
    pub place: u64,
}

impl fmt::Display for Link {
    ghost use Rattle.std.specs.Prelude.{Some};
    ghost use Rattle.trial_maker.specs.Chains.{digits_text};

    ghost output = { λ link. Some (digits_text link) };

    /// The two digits that stand in its names.
    #[tactic(auto, unfolding(crate::specs::Chains::digits_text))]
    fn fmt<W: fmt::Write>(&self, f: &mut fmt::Formatter<W>) -> fmt::Result {
        let Link { chain, place } = *self;
        write!(f, "{chain}_{place}")
    }
}

/// The component of a number, counted chain by chain.
pub fn link_at(number: u64) -> Link
    ensures { result ≡ link_at number }
{
    Link {
        chain: number / PLACES,
        place: number % PLACES,
    }
}

/// All components, chain by chain. The error is out of memory.
#[tactic(auto, using(crate::proofs::LinksByNumber::one_more))]
pub fn links(alloc: Global) -> Result<Vec<Link>, AllocError>
    ensures { IfOk result (λ all. all.items ≡ links) }
{
    let mut links = Vec::new(alloc);
    for number in 0..LINKS {
        links.push(link_at(number))?;
    }
    Ok(links)
}

/// The name of the mode of a number.
#[tactic(auto, unfolding(crate::specs::Chains::mode_name))]
pub fn mode_name(mode: u64) -> &'static str
    ensures { result.now ≡ mode_name mode }
{
    match mode {
        0 => "a",
        1 => "b",
        2 => "c",
        _ => "",
    }
}

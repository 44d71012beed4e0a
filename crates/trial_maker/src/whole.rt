//! The document as a whole.

ghost use Rattle.std.specs.Prelude.{◌≡◌, OnOk, IfOk};
ghost use Rattle.std.specs.String.{string_bytes};
ghost use Rattle.trial_maker.specs.Documents.{AreDrawn, setup_lines, document};

use crate::chains::links;
use crate::draws::Draws;
use crate::plant::push_plant;
use crate::script::{push_mirrors, push_ticks};
use crate::transitions::{push_failures, push_moves};
use cca_base::List;
use std::alloc::{AllocError, Global};

/// The lines before the ticks: the model and the mirrors.
fn push_setup(alloc: Global, out: &mut String, draws: &mut Draws) -> Result<(), AllocError>
    ensures { OnOk result (AreDrawn (string_bytes out.old) (string_bytes out.new)
        draws.old.number draws.new.number setup_lines) }
{
    let links = links(alloc)?;
    let links = links.as_slice();
    push_plant(out, links)?;
    push_moves(out, draws, links)?;
    push_failures(out, draws, links)?;
    push_mirrors(out, links)
}

/// The document of a seed. The error is out of memory.
pub fn trial(alloc: Global, seed: u64) -> Result<List<u8>, AllocError>
    ensures { IfOk result (λ text. text ≡ document seed) }
{
    let mut out = String::new(alloc);
    let mut draws = Draws { number: seed };
    push_setup(alloc, &mut out, &mut draws)?;
    push_ticks(&mut out, &mut draws)?;
    Ok(List::of(out.into_bytes()))
}

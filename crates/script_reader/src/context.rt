//! What the meaning of a line of a script depends on.

use cca_base::{Pair, VarSet};
use formula_syntax::NamedModel;

/// The model, the observations that are pending, and the variables that are mirrored.
#[derive(Drop)]
pub struct Context<'a> {
    pub model: NamedModel<'a>,
    pub pending: &'a [Pair],
    pub mirrored: VarSet,
}

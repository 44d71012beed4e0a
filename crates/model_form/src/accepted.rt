//! An accepted model with its names.

ghost use Rattle.std.specs.Prelude.{◌≡◌};
ghost use Rattle.cca_base.specs.Prelude.{IsCompiled};
ghost use Rattle.formula_syntax.specs.Lookups.{NamesFit};

use cca_base::{Compiled, Name, Subject};
use formula_syntax::NamedModel;
use indexmap::IndexMap;

/// An accepted model with what is compiled from it, and the map of its names. A contract sees the first.
#[derive(Drop)]
pub struct Accepted {
    compiled: Compiled,
    names: IndexMap<Name, Subject>,
}

impl std::marker::Model for Accepted {
    ghost use Rattle.cca_base.specs.Prelude.{model_codes, CompiledModel};
    ghost use Rattle.formula_syntax.specs.Lookups.{NamesFit};

    ghost Value = { CompiledModel };

    ghost coded = { Prim.hlevel model_codes };

    ghost view = { λ a. a.compiled };

    ghost invariant = { λ a. NamesFit a.names a.compiled.model };
}

impl Accepted {
    /// An accepted model with its names.
    pub fn new(compiled: Compiled, names: IndexMap<Name, Subject>) -> Accepted
        requires { NamesFit names compiled.model }
        ensures { result ≡ compiled }
    {
        Accepted { compiled, names }
    }

    /// What is compiled from it.
    pub fn compiled(&self) -> &Compiled
        ensures { result.now ≡ self.now }
    {
        &self.compiled
    }

    /// The model with its names.
    pub fn named(&self) -> NamedModel<'_>
        ensures { result ≡ self.now.model }
    {
        NamedModel::new(self.compiled.model(), &self.names)
    }

    /// Both of them.
    pub fn into_parts(self) -> (Compiled, IndexMap<Name, Subject>)
        ensures value { result.0 ≡ self }
        ensures compiled { IsCompiled self }
        ensures fit { NamesFit result.1 result.0.model }
    {
        let _compiled = self.compiled.model();
        (self.compiled, self.names)
    }
}

//! What does not depend on the version of a model.
#![tactic(auto)]

ghost use Rattle.version_laws.specs.Laws.{VersionsAlike, VersionsDiffer};
ghost use Rattle.version_laws.specs.Traces.{CompiledAlike, PromisesAlike, TracesAlike, RoutesAlike, FirstWorldsAlike};

/// Worlds, steps, implicants, allowed plans and reach are those of the same model in another version.
pub fn nothing_but_rules()
    ensures alike { VersionsAlike }
    ensures differ { VersionsDiffer }
{}

/// What is compiled of a model is compiled of it in another version whose rules it meets, and so are its routes. Promising replies, the
/// traces of events and the first worlds are those of the model in any other version.
pub fn traces_alike()
    ensures compiled { CompiledAlike }
    ensures promises { PromisesAlike }
    ensures traces { TracesAlike }
    ensures routes { RoutesAlike }
    ensures worlds { FirstWorldsAlike }
{}

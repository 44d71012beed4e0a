//! What an order, a cycle and ancestors are, said of the model whose needs the rows are.

ghost use Rattle.causal_graph.specs.Laws.{AncestorsAreOfModels, CyclesAreOfModels, ModelsHaveRows, OrdersAreOfModels};

/// What is answered about the rows of a model's needs is the model's own.
pub fn answers_are_of_models()
    ensures rows { ModelsHaveRows }
    ensures orders { OrdersAreOfModels }
    ensures cycles { CyclesAreOfModels }
    ensures ancestors { AncestorsAreOfModels }
{}

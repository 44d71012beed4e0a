//! Laws of every machine: its text is one, and monotone in the input by the prefix order.
ghost use Rattle.std.specs.Prelude.{◌≡◌, ℕ, List, [], ◌++◌};
ghost use Rattle.line_machine.specs.Runs.{IsSure, IsText, IsPrefix, IsQuiet};
ghost use Rattle.line_machine.specs.Fronts.{PrintsByLines, PrintsSoFar};
ghost use Rattle.line_machine.specs.Next.{Next, GoesOn, Stops};
ghost use Rattle.line_machine.specs.declared.machine.End.{End};

use crate::machine::Machine;
use std::marker::PhantomData;

/// What a machine says of some bytes, and what it says of more.
pub fn sure_text_laws<M: Machine>(_of: PhantomData<M>)
    // What bytes alone decide begins each whole text of more bytes, and all that more bytes decide.
    ensures begins_text { (s : M) (a more x y : List ℕ) (t : Next M) (e : End) →
        IsSure M.Machine s a t x → IsText M.Machine s (a ++ more) e y → IsPrefix x y }
    ensures begins_sure { (s : M) (a more x y : List ℕ) (t u : Next M) →
        IsSure M.Machine s a t x → IsSure M.Machine s (a ++ more) u y → IsPrefix x y }

    // Where they decide the end, they decide the whole text.
    ensures decided { (s : M) (a more x : List ℕ) (e : End) →
        IsSure M.Machine s a (Stops e) x → IsText M.Machine s (a ++ more) e x }

    // There is one such text at most.
    ensures one_sure { (s : M) (a x y : List ℕ) (t u : Next M) →
        IsSure M.Machine s a t x → IsSure M.Machine s a u y → (t ≡ u) × (x ≡ y) }
    ensures one_text { (s : M) (a x y : List ℕ) (e f : End) →
        IsText M.Machine s a e x → IsText M.Machine s a f y → (e ≡ f) × (x ≡ y) }

    // A machine that prints only where it ends says nothing of bytes that don't decide the end.
    ensures quiet { (s t : M) (a x : List ℕ) → IsQuiet M.Machine →
        IsSure M.Machine s a (GoesOn t) x →
        x ≡ [] }

    // A machine that prints by lines has printed, whatever of it went out, nothing yet or the whole text of some bytes that came first.
    ensures fronts { (s : M) → PrintsByLines M.Machine s → PrintsSoFar M.Machine s }
{}

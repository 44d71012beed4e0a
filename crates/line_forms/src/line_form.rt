//! A form of words by its lines: what a line says, and what is done for it.

ghost use Rattle.std.specs.Prelude.{◌≡◌, ◌+◌, ℕ, List, [], Option, Result, Ok, Some, None, true, IfOk, IsTrue, ◌≤◌, false, IfErr, IsSome};
ghost use Rattle.cca_base.specs.Prelude.{stop_code, Answers, CompiledModel};
ghost use Rattle.line_machine.specs.Next.{Next, next_of};
ghost use Rattle.byte_buffer.specs.Outs.{Appended, HasRoomLeft, IsFront};
ghost use Rattle.line_machine.specs.Steady.{TookNone};
ghost use Rattle.line_machine.specs.declared.machine.TheConstants.{LINE_ROOM};
ghost use Rattle.trace_text.specs.declared.refusal.TheConstants.{REFUSAL_ROOM};
ghost use Rattle.model_form.specs.Answers.{answer};
ghost use Rattle.line_forms.specs.LineMeaning.{LineMeaning, read_into};

use cca_base::{Model, Stop};
use line_machine::{End, Out};
use model_form::Accepted;
use std::alloc::{AllocError, Global};

/// What a line says, and what is done for it. `I` is what a line may ask for.
pub trait LineForm<I> {
    /// What lines mean here.
    ghost means: { LineMeaning Self I };

    /// The model.
    fn model(&self) -> &Model
        ensures { result.now ≡ means.model_of self.now };

    /// Whether a refusal is printed as JSON.
    fn is_json(&self) -> bool
        ensures { result ≡ means.is_json self.now };

    /// The most bytes of the next line.
    fn limit(&self) -> usize
        ensures value { result ≡ means.limit_of self.now }
        ensures short { (n : ℕ) → means.steady self.now n → result ≤ LINE_ROOM };

    /// Whether an empty line is known to say nothing here.
    fn skips_empty(&self) -> bool
        ensures { IsTrue result → means.said self.now [] (Ok None) };

    /// A place for what a line asks for, before the first line. The error is out of memory.
    fn place(&self, alloc: Global) -> Result<I, AllocError>;

    /// Reads a line: whether it asks for something, which stands in the place then.
    fn read(&self, alloc: Global, line: &[u8], item: &mut I) -> Result<bool, Stop>
        ensures said { Answers (read_into item.new result) (means.said self.now line.now) }
        ensures fits { result ≡ Ok true → means.fits self.now item.new }
        ensures steady { (n : ℕ) → means.steady self.now n →
            IfErr result (λ stop. IsSome (stop_code stop)) };

    /// Does what a line of this number asks for, and appends what is printed. What stands in the place afterwards means nothing. The
    /// error is out of memory.
    fn serve(
        &mut self,
        alloc: Global,
        number: u64,
        item: &mut I,
        out: &mut Out,
    ) -> Result<Option<End>, AllocError>
        requires fits { means.fits self.old item.old }
        requires turn { means.awaits self.old number }
        ensures serves { IfOk result (λ end. Appended
            (means.serves item.old self.old number (next_of self.new end)) out.old out.new) }
        ensures turn { IfOk result (λ end. end ≡ None → means.awaits self.new (number + 1)) }
        ensures steady { (n : ℕ) → means.steady self.old n → HasRoomLeft out.old n →
            TookNone out.old result out.new
            × IfOk result (λ end. end ≡ None → means.steady self.new n) }
        ensures front { IsFront out.old out.new };

    /// Takes the end of the input, behind `count` lines, and appends what is printed. The error is out of memory.
    fn close(&mut self, alloc: Global, count: u64, out: &mut Out) -> Result<End, AllocError>
        ensures closes { IfOk result (λ end.
            Appended (λ text. answer end text ≡ means.closing self.old count) out.old out.new) }
        ensures steady { (n : ℕ) → means.steady self.old n → HasRoomLeft out.old n →
            TookNone out.old result out.new }
        ensures front { IsFront out.old out.new };

    // A state and a line have one meaning, and a state and an item that is said there lead to one state and one text.
    ghost said_one: { (x : Self) (l : List ℕ) (a b : Result (Option I) ℕ) →
        means.said x l a → means.said x l b → a ≡ b };

    ghost serves_one: { (i : I) (x : Self) (l : List ℕ) (n : ℕ) (u v : Next Self) (a c : List ℕ) →
        means.said x l (Ok (Some i)) → means.serves i x n u a → means.serves i x n v c →
        (u ≡ v) × (a ≡ c) };

    // A form whose lines take no memory prints refusals in words, and counts the room for one.
    ghost steady_refusals: { (x : Self) (n : ℕ) → means.steady x n →
        (means.is_json x ≡ false) × (REFUSAL_ROOM ≤ n) };

    // A state that waits for a line may wait for the next one, as behind a line that says nothing.
    ghost awaits_on: { (x : Self) (n : ℕ) → means.awaits x n → means.awaits x (n + 1) };
}

/// A form that begins behind an accepted model.
pub trait OpensLines<I>: LineForm<I> {
    /// Where it stands before the first line.
    ghost first: { CompiledModel → Self };

    /// Before the first line. The error is out of memory.
    fn open(alloc: Global, accepted: Accepted) -> Result<Self, AllocError>
        ensures first { IfOk result (λ b. b ≡ first accepted) }
        ensures turn { IfOk result (λ b. (n : ℕ) → Self.means.awaits b (n + 1)) };
}

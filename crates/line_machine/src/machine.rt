//! A form of words as a transducer over lines: a state machine that prints at each step (a Mealy machine).
ghost use Rattle.std.specs.Prelude.{◌≡◌, ◌≤◌, ◌+◌, ◌++◌, ℕ, List, [], length, None, IfOk, IsTrue, OnOk};
ghost use Rattle.line_machine.specs.Next.{Next, GoesOn, next_of};
ghost use Rattle.line_machine.specs.Steady.{TookNone};
ghost use Rattle.byte_buffer.specs.Outs.{Appended, IsFront, HasRoomLeft};

use byte_buffer::Out;
use std::alloc::{AllocError, Global};

/// How a program ends that meets no fault.
#[derive(Clone, Copy, Debug, PartialEq, Eq)]
pub enum End {
    /// The form of words came to its end, and the whole text went out.
    Ended,
    /// A printed trace was found wrong.
    Rejected,
    /// A line was refused.
    Refused,
}

/// Lines of a larger number are refused.
pub const MAX_LINES: u64 = 1_000_000;

/// The most bytes of a line of a machine that takes no memory, without its LF.
pub const LINE_ROOM: usize = 4096;

/// The code of a line past its limit of bytes.
pub const LONG_LINE: u8 = 18;

/// The code of a line past the last number.
pub const TOO_MANY_LINES: u8 = 19;

/// A form of words: what it prints for lines, one after the other, and for their end.
pub trait Machine {
    ghost use Rattle.line_machine.specs.declared.machine.End.{End};

    /// The most bytes of the next line, without its LF.
    ghost limit_of: { Self → ℕ };

    /// The text of a refusal, by line and code.
    ghost refusal: { Self → ℕ → ℕ → List ℕ };

    /// From this state the line of this number leads here, and prints this.
    ghost steps: { Self → ℕ → List ℕ → Next Self → List ℕ → Type 0 };

    /// In this state, behind so many lines, the end of the input ends the program so, and prints this.
    ghost closes: { Self → ℕ → End → List ℕ → Type 0 };

    /// In this state the line of this number may come next. A machine that counts something a line tells here that so few lines
    /// can't bring it past its greatest number.
    ghost awaits: { Self → ℕ → Type 0 };

    /// From this state on no line takes memory where what is printed has room for so many bytes more; nor does the end of the input, nor
    /// a refusal. A machine that promises this of no state says so.
    ghost steady: { Self → ℕ → Type 0 };

    /// The most bytes of the next line.
    fn limit(&self) -> usize
        ensures value { result ≡ limit_of self.now }
        ensures short { (n : ℕ) → steady self.now n → result ≤ LINE_ROOM };

    /// Whether an empty line is known to do nothing here: it prints nothing, and leaves the state as it is. A driver may pass over it.
    fn skips_empty(&self) -> bool
        ensures skips { IsTrue result → (n : ℕ) → steps self.now n [] (GoesOn self.now) [] }
        ensures turn { IsTrue result → (n : ℕ) → awaits self.now n → awaits self.now (n + 1) };

    /// Appends the text of a refusal. The error is out of memory.
    fn refuse(&self, alloc: Global, number: u64, code: u8, out: &mut Out) -> Result<(), AllocError>
        ensures text { OnOk result
            (out.new.bytes ≡ out.old.bytes ++ refusal self.now number code) }
        ensures front { IsFront out.old out.new }
        ensures steady { (n : ℕ) → steady self.now n → HasRoomLeft out.old n →
            TookNone out.old result out.new };

    /// Takes a whole line, without its LF: appends what is printed, and answers whether that is the end. The error is out of memory.
    fn step(
        &mut self,
        alloc: Global,
        number: u64,
        line: &[u8],
        out: &mut Out,
    ) -> Result<Option<End>, AllocError>
        requires short { length line.now ≤ limit_of self.old }
        requires turn { awaits self.old number }
        ensures steps { IfOk result (λ end. Appended
            (steps self.old number line.now (next_of self.new end)) out.old out.new) }
        ensures turn { IfOk result (λ end. end ≡ None → awaits self.new (number + 1)) }
        ensures front { IsFront out.old out.new }
        ensures steady { (n : ℕ) → steady self.old n → HasRoomLeft out.old n →
            TookNone out.old result out.new × IfOk result (λ end. end ≡ None → steady self.new n) };

    /// Takes the end of the input, behind `count` lines: appends what is printed, and answers how the program ends. The error is out of
    /// memory.
    fn close(&mut self, alloc: Global, count: u64, out: &mut Out) -> Result<End, AllocError>
        ensures closes { IfOk result (λ end. Appended (closes self.old count end) out.old out.new) }
        ensures front { IsFront out.old out.new }
        ensures steady { (n : ℕ) → steady self.old n → HasRoomLeft out.old n →
            TookNone out.old result out.new };

    // A state and a line lead to one state and one text, and a state and the end of the input to one end and one text.
    ghost steps_are_one: { (s : Self) (n : ℕ) (l : List ℕ) (u v : Next Self) (a c : List ℕ) →
        steps s n l u a → steps s n l v c → (u ≡ v) × (a ≡ c) };

    ghost closes_are_one: { (s : Self) (n : ℕ) (e f : End) (a c : List ℕ) → closes s n e a →
        closes s n f c → (e ≡ f) × (a ≡ c) };
}

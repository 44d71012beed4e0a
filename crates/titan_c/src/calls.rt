//! What C calls.

ghost use Rattle.std.specs.Prelude.{◌≡◌, ◌≤◌, ◌⊎◌, ◌<◌, None, IfOk};
ghost use Rattle.titan_session.specs.RunSessions.{opened};
ghost use Rattle.titan_c.specs.declared.status.TheConstants.{GOES_ON, NO_MEMORY, REJECTED, WRONG_CALL};
ghost use Rattle.titan_c.specs.Calls.{HandedOver, HoldsGoing, IsWrongLine, OpenedBy, WasEnded, WasGivenLine};

use crate::handle::Handle;
use crate::status::{GOES_ON, NO_MEMORY, WRONG_CALL, status_of};
use run_form::{Notation, RunMachine, open_run};
use std::alloc::{AllocError, Global};
use titan_session::{Session, is_one_line};

/// A session on the heap, before its first line. The error is out of memory.
fn session_box(alloc: Global, notation: Notation) -> Result<Box<Session<RunMachine>>, AllocError>
    ensures { IfOk result (λ b. b.value ≡ opened notation) }
{
    let session = Session::open(alloc, open_run(alloc, notation)?);
    match Box::new(alloc, session) {
        Ok(kept) => Ok(kept),
        Err(_) => Err(AllocError),
    }
}

/// Opens a session in a handle of nothing, which prints in words (0), as JSON (1), or in words with proofs (2).
#[unsafe(no_mangle)]
pub extern "C" fn titan_open(alloc: Global, handle: &mut Handle, words: u32) -> u32
    ensures opened { result ≡ GOES_ON → (handle.old.kept ≡ None) × OpenedBy words handle.new.kept }
    ensures memory { result ≡ NO_MEMORY →
        (handle.old.kept ≡ None) × (words ≤ 2) × (handle.new.kept ≡ None) }
    ensures wrong { result ≡ WRONG_CALL → handle.new.kept ≡ handle.old.kept }
    ensures wrong_where { result ≡ WRONG_CALL → (¬ (handle.old.kept ≡ None)) ⊎ (2 < words) }
    ensures wrong_words { 2 < words → result ≡ WRONG_CALL }
    ensures wrong_held { ¬ (handle.old.kept ≡ None) → result ≡ WRONG_CALL }
    ensures few { (result ≡ GOES_ON) ⊎ ((result ≡ WRONG_CALL) ⊎ (result ≡ NO_MEMORY)) }
{
    let notation = match words {
        0 => Notation::Words,
        1 => Notation::Json,
        2 => Notation::Proof,
        _ => return WRONG_CALL,
    };
    match handle.take(alloc) {
        Some(kept) => {
            handle.give(alloc, kept);
            WRONG_CALL
        }
        None => match session_box(alloc, notation) {
            Ok(kept) => {
                handle.give(alloc, kept);
                GOES_ON
            }
            Err(_) => NO_MEMORY,
        },
    }
}

/// Hands a line, without its LF, to the session, and writes as much as fits of what waits then to the front
/// of the buffer.
#[unsafe(no_mangle)]
pub extern "C" fn titan_line(
    alloc: Global,
    handle: &mut Handle,
    line: &[u8],
    out: &mut [u8],
    written: &mut usize,
) -> u32
    ensures said { result ≤ REJECTED →
        WasGivenLine handle.old.kept handle.new.kept line.now
        out.old out.new written.new result }
    ensures memory { result ≡ NO_MEMORY → HoldsGoing handle.old.kept × (handle.new.kept ≡ None) }
    ensures wrong { result ≡ WRONG_CALL → handle.new.kept ≡ handle.old.kept }
    ensures wrong_where { result ≡ WRONG_CALL → IsWrongLine handle.old.kept line.now }
    ensures wrong_there { IsWrongLine handle.old.kept line.now → result ≡ WRONG_CALL }
    ensures quiet { WRONG_CALL ≤ result → (out.new ≡ out.old) × (written.new ≡ 0) }
    ensures few { result ≤ NO_MEMORY }
{
    *written = 0;
    if !is_one_line(line) {
        return WRONG_CALL;
    }
    let Some(mut kept) = handle.take(alloc) else {
        return WRONG_CALL;
    };
    if !kept.is_going() {
        handle.give(alloc, kept);
        return WRONG_CALL;
    }
    match kept.line(alloc, line) {
        Ok(()) => {
            handle.give(alloc, kept);
            titan_take(alloc, handle, out, written)
        }
        Err(_) => NO_MEMORY,
    }
}

/// Tells the session that no line comes any more, and writes as much as fits of what waits then to the front
/// of the buffer.
#[unsafe(no_mangle)]
pub extern "C" fn titan_end(
    alloc: Global,
    handle: &mut Handle,
    out: &mut [u8],
    written: &mut usize,
) -> u32
    ensures said { result ≤ REJECTED →
        WasEnded handle.old.kept handle.new.kept out.old out.new written.new result }
    ensures memory { result ≡ NO_MEMORY → HoldsGoing handle.old.kept × (handle.new.kept ≡ None) }
    ensures wrong { result ≡ WRONG_CALL → handle.new.kept ≡ handle.old.kept }
    ensures wrong_where { result ≡ WRONG_CALL → ¬ (HoldsGoing handle.old.kept) }
    ensures wrong_there { ¬ (HoldsGoing handle.old.kept) → result ≡ WRONG_CALL }
    ensures quiet { WRONG_CALL ≤ result → (out.new ≡ out.old) × (written.new ≡ 0) }
    ensures few { result ≤ NO_MEMORY }
{
    *written = 0;
    let Some(mut kept) = handle.take(alloc) else {
        return WRONG_CALL;
    };
    if !kept.is_going() {
        handle.give(alloc, kept);
        return WRONG_CALL;
    }
    match kept.finish(alloc) {
        Ok(()) => {
            handle.give(alloc, kept);
            titan_take(alloc, handle, out, written)
        }
        Err(_) => NO_MEMORY,
    }
}

/// Writes as much as fits of what waits to the front of the buffer.
#[unsafe(no_mangle)]
pub extern "C" fn titan_take(
    alloc: Global,
    handle: &mut Handle,
    out: &mut [u8],
    written: &mut usize,
) -> u32
    ensures said { ¬ (result ≡ WRONG_CALL) →
        HandedOver handle.old.kept handle.new.kept out.old out.new written.new result }
    ensures wrong { result ≡ WRONG_CALL → (handle.old.kept ≡ None) × (handle.new.kept ≡ None) }
    ensures wrong_there { handle.old.kept ≡ None → result ≡ WRONG_CALL }
    ensures quiet { result ≡ WRONG_CALL → (out.new ≡ out.old) × (written.new ≡ 0) }
    ensures few { result ≤ NO_MEMORY }
{
    *written = 0;
    let Some(mut kept) = handle.take(alloc) else {
        return WRONG_CALL;
    };
    *written = kept.take(out);
    let status = status_of(kept.stage());
    handle.give(alloc, kept);
    status
}

/// Frees all that a handle holds, and leaves it empty.
#[unsafe(no_mangle)]
pub extern "C" fn titan_close(alloc: Global, handle: &mut Handle)
    ensures { handle.new.kept ≡ None }
{
    handle.clear(alloc);
}

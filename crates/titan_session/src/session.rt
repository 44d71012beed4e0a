//! The session.

ghost use Rattle.std.specs.Prelude.{◌≡◌, ◌≤◌, ◌⊎◌, [], length, take, drop, true, false, IfOk, OnOk, OnErr};

use crate::pending::Pending;
use crate::turn::take_line;
use line_machine::{End, Machine, Out};
use std::alloc::{AllocError, Global};
use std::marker::Model;
use std::mem;

/// Where the machine of a session is.
#[derive(Drop)]
pub enum Stage<M> {
    /// It takes lines.
    Going(M),
    /// It came to its end, or refused a line, and takes no more.
    Over(End),
    /// Memory ran out in a call, and nothing more is known of it.
    Lost,
}

/// A machine, how many lines it was given, and the text that it printed and that wasn't taken yet.
#[derive(Drop)]
pub struct Session<M: Machine + Drop> {
    stage: Stage<M>,
    count: u64,
    text: Pending,
}

impl<M: Machine + Drop> Model for Session<M> {
    ghost use Rattle.std.specs.Coded.{codes};
    ghost use Rattle.titan_session.specs.Sessions.{AwaitsNext, SessionState};

    ghost Value = { SessionState M };

    ghost coded = { Prim.hlevel codes };

    ghost view = { λ s. record { stage = s.stage; count = s.count; pending = s.text } };

    ghost invariant = { λ s. AwaitsNext M.Machine s.stage s.count };
}

impl<M: Machine + Drop> Session<M> {
    ghost use Rattle.titan_session.specs.Sessions.{GivesOut, IsGoing, TakesEnd, TakesLine, session_first, session_lost};
    ghost use Rattle.line_machine.specs.Lines.{HasNoLf};

    /// Before the first line of a machine.
    pub fn open(alloc: Global, machine: M) -> Session<M>
        requires { M.awaits machine 1 }
        ensures { result ≡ session_first machine }
    {
        Session {
            stage: Stage::Going(machine),
            count: 0,
            text: Pending::new(alloc),
        }
    }

    /// Where the machine is.
    pub fn stage(&self) -> &Stage<M>
        ensures { result.now ≡ self.now.stage }
    {
        &self.stage
    }

    /// Whether it takes lines.
    pub fn is_going(&self) -> bool
        ensures going { result ≡ true → IsGoing self.now.stage }
        ensures not_going { result ≡ false → ¬ (IsGoing self.now.stage) }
    {
        match &self.stage {
            Stage::Going(_) => true,
            Stage::Over(_) => false,
            Stage::Lost => false,
        }
    }

    /// Hands a line, without its LF, to the machine. Out of memory the session is lost, and what waits still does.
    pub fn line(&mut self, alloc: Global, line: &[u8]) -> Result<(), AllocError>
        requires goes_on { IsGoing self.old.stage }
        requires clean { HasNoLf line.now }
        ensures said { OnOk result (TakesLine M.Machine self.old self.new line.now) }
        ensures lost { OnErr result (self.new ≡ session_lost self.old) }
    {
        let Stage::Going(mut machine) = mem::replace(&mut self.stage, Stage::Lost) else {
            unreachable!()
        };
        let mut out = Out::new(alloc);
        let end = take_line(alloc, &mut machine, self.count + 1, line, &mut out)?;
        self.text.push(out.as_slice())?;
        self.count += 1;
        self.stage = match end {
            None => Stage::Going(machine),
            Some(end) => Stage::Over(end),
        };
        Ok(())
    }

    /// Tells the machine that no line comes any more. Out of memory the session is lost, and what waits still does.
    pub fn finish(&mut self, alloc: Global) -> Result<(), AllocError>
        requires goes_on { IsGoing self.old.stage }
        ensures said { OnOk result (TakesEnd M.Machine self.old self.new) }
        ensures lost { OnErr result (self.new ≡ session_lost self.old) }
    {
        let Stage::Going(mut machine) = mem::replace(&mut self.stage, Stage::Lost) else {
            unreachable!()
        };
        let mut out = Out::new(alloc);
        let end = machine.close(alloc, self.count, &mut out)?;
        self.text.push(out.as_slice())?;
        self.stage = Stage::Over(end);
        Ok(())
    }

    /// Moves as much as fits of what waits to the front of the buffer, and answers how much.
    pub fn take(&mut self, out: &mut [u8]) -> usize
        ensures gives { GivesOut self.old self.new (take result out.new) }
        ensures rest { drop result out.new ≡ drop result out.old }
        ensures fits { result ≤ length out.old }
        ensures all { (result ≡ length out.old) ⊎ (self.new.pending ≡ []) }
    {
        self.text.take(out)
    }
}

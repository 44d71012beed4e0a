//! One component of a question: where it stands in the lists of values, and what bounds its steps.

ghost use Rattle.std.specs.Prelude.{◌≡◌, ◌<◌, ◌≤◌, ◌↔◌, IsTrue, length, slice_index};
ghost use Rattle.cca_base.specs.Prelude.{mode_counts, HasMode};
ghost use Rattle.cca_base.specs.declared.limits.TheConstants.{MAX_CHOICES};
ghost use Rattle.trajectory_estimator.specs.Queries.{IsAsked};
ghost use Rattle.trajectory_estimator.specs.Walks.{gate_place, mode_place, places};

use crate::query::Query;
use crate::step::Ahead;
use group_search::has_value;

/// One component of a question, within the sets of a box.
#[derive(Clone, Copy)]
pub(crate) struct ComponentQuery<'a> {
    pub query: &'a Query<'a>,
    pub component: u16,
    pub masks: &'a [u64],
    ghost within: { component < length query.now.model.components },
    ghost full: { length masks.now ≡ places query.now },
}

impl<'a> ComponentQuery<'a> {
    ghost use Rattle.trajectory_estimator.specs.Rests.{IsAhead, MayStand};

    /// How many modes the component has.
    pub(crate) fn modes(&self) -> usize
        ensures modes { result ≡ slice_index (mode_counts self.now.query.now.model) self.now.component }
        ensures few { result ≤ MAX_CHOICES }
        ensures asked { IsAsked self.now.query.now }
    {
        let components = self.query.model().components();
        components.get(self.component as usize).modes.len()
    }

    /// The mode in which it stands before the window.
    pub(crate) fn anchor(&self) -> u8
        ensures value { result ≡ slice_index self.now.query.now.anchor self.now.component }
        ensures mode { HasMode self.now.query.now.model self.now.component result }
        ensures asked { IsAsked self.now.query.now }
    {
        *self.query.anchor().modes.get(self.component as usize)
    }

    /// Where its mode behind a record stands.
    pub(crate) fn mode_place(&self, at: usize) -> usize
        requires { at < length self.now.query.now.records }
        ensures value { result ≡ mode_place self.now.query.now self.now.component at }
        ensures within { result < places self.now.query.now }
    {
        let components = self.query.model().components().len();
        at * components + self.component as usize
    }

    /// Where its gate at a record stands.
    pub(crate) fn gate_place(&self, at: usize) -> usize
        requires { at < length self.now.query.now.records }
        ensures value { result ≡ gate_place self.now.query.now self.now.component at }
        ensures within { result < places self.now.query.now }
    {
        let components = self.query.model().components().len();
        (self.query.records().len() + at) * components + self.component as usize
    }

    /// What its step at a record may be, before what stands behind the record.
    pub(crate) fn ahead<'b>(&self, at: usize, rests: &'b [Option<u64>]) -> Ahead<'b>
        requires { at < length self.now.query.now.records }
        ensures { IsAhead self.now at rests.now result }
    {
        Ahead {
            modes: self.masks[self.mode_place(at)],
            gates: self.masks[self.gate_place(at)],
            rests,
        }
    }

    /// Whether it may stand in the mode before a record.
    pub(crate) fn may_stand(&self, at: usize, mode: u8) -> bool
        requires { at < length self.now.query.now.records }
        ensures { IsTrue result ↔ MayStand self.now at mode }
    {
        if at == 0 {
            return mode == self.anchor();
        }
        has_value(self.masks[self.mode_place(at - 1)], mode)
    }
}

//! Values of a group's components, among which a clash is looked for.

ghost use Rattle.std.specs.Prelude.{◌≡◌, ◌<◌, length};
ghost use Rattle.group_search.specs.Questions.{in_group};
ghost use Rattle.trajectory_estimator.specs.Queries.{IsAsked};
ghost use Rattle.trajectory_estimator.specs.Walks.{places};
ghost use Rattle.trajectory_estimator.specs.Windows.{AreStill, state_at};

use crate::query::Query;
use group_search::is_in_group;

/// The values of all places, of which those of a group's components are looked at.
#[derive(Clone, Copy)]
pub(crate) struct GroupPaths<'a> {
    pub query: &'a Query<'a>,
    pub values: &'a [u8],
    pub names: &'a [u16],
    pub group: Option<u16>,
    /// Which components stand still through the window.
    pub still: &'a [bool],
    ghost full: { length values.now ≡ places query.now },
    ghost stands: { AreStill query.now still.now },
    ghost named: { length names.now ≡ length query.now.model.components },
}

impl<'a> GroupPaths<'a> {
    /// How many components the model has.
    pub(crate) fn count(&self) -> usize
        ensures count { result ≡ length self.now.query.now.model.components }
        ensures asked { IsAsked self.now.query.now }
    {
        self.query.model().components().len()
    }

    /// Whether the component is one of the group.
    pub(crate) fn has(&self, component: u16) -> bool
        requires { component < length self.now.query.now.model.components }
        ensures { result ≡ in_group self.now.names.now self.now.group component }
    {
        is_in_group(self.names, self.group, component)
    }

    /// The modes of all components behind a record.
    pub(crate) fn modes_at(&self, at: usize) -> &'a [u8]
        requires { at < length self.now.query.now.records }
        ensures { result.now ≡ state_at self.now.query.now self.now.values.now at }
    {
        let count = self.count();
        &self.values[at * count..at * count + count]
    }
}

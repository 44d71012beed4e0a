//! A window as a question of paths.

ghost use Rattle.std.specs.Prelude.{◌≡◌, ◌≤◌, All, length};
ghost use Rattle.cca_base.specs.declared.limits.TheConstants.{MAX_COMPONENTS, MAX_COST};
ghost use Rattle.trajectory_estimator.specs.declared.record.TheConstants.{MAX_WINDOW};
ghost use Rattle.trajectory_estimator.specs.Windows.{AreStill, window_of};

use crate::component_query::ComponentQuery;
use crate::follow::follow;
use crate::gate::gate_clash;
use crate::group_paths::GroupPaths;
use crate::heads::fill_heads;
use crate::prices::set_prices;
use crate::query::Query;
use crate::rests::fill_rests;
use crate::shown::shown_clash;
use crate::space::WindowSpace;
use bounded_list::BoundedList;
use cca_base::{MAX_CHOICES, Pair};
use group_search::{Columns, Paths};

/// A window's question, with the component of each place.
#[derive(Drop)]
pub(crate) struct WindowPaths<'a> {
    pub query: &'a Query<'a>,
    pub components: &'a [u16],
    /// Which components stand still through the window.
    pub still: &'a [bool],
    ghost few_components: { length query.now.model.components ≤ MAX_COMPONENTS },
    ghost few_records: { length query.now.records ≤ MAX_WINDOW },
    ghost cheap: { All (λ failure. failure.cost ≤ MAX_COST) query.now.model.failures },
    ghost stands: { AreStill query.now still.now },
    ghost places: { components.now ≡ (window_of query.now).of },
}

impl<'a> Paths<WindowSpace> for WindowPaths<'a> {
    ghost use Rattle.trajectory_estimator.specs.Meanings.{window_means};
    ghost use Rattle.trajectory_estimator.specs.WindowLaws.{window_few, window_own, window_owned, window_whole};

    ghost means = { window_means };

    ghost owned = { window_owned };

    ghost few = { window_few };

    ghost whole = { window_whole };

    ghost own_places = { window_own };

    fn components(&self) -> &[u16] {
        self.components
    }

    fn count(&self) -> usize {
        self.query.model().components().len()
    }

    fn room(&self) -> usize {
        (self.query.records().len() + 1) * MAX_CHOICES
    }

    fn column(&self, component: u16, masks: &[u64], columns: &mut Columns) -> bool {
        let asked = ComponentQuery {
            query: self.query,
            component,
            masks,
        };
        fill_rests(&asked, &mut columns.behind);
        if !follow(&asked, columns) {
            return false;
        }
        fill_heads(&asked, &columns.behind, &mut columns.before);
        set_prices(&asked, columns);
        true
    }

    fn clash(
        &self,
        space: &mut WindowSpace,
        values: &[u8],
        costs: &[u64],
        names: &[u16],
        group: Option<u16>,
        cut: &mut BoundedList<Pair>,
    ) -> bool {
        let paths = GroupPaths {
            query: self.query,
            values,
            names,
            group,
            still: self.still,
        };
        let count = self.query.records().len();
        for done in 0..count {
            let at = count - 1 - done;
            if gate_clash(&paths, at, cut) || shown_clash(&paths, at, space, cut) {
                return true;
            }
        }
        false
    }
}

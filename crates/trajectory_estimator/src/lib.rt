//! The best trajectory over a window of ticks: of least cost, and the first in mode order among equals. A tracker keeps the window
//! open over many ticks, and says from which tick on it has revised them.
#![tactic(auto)]

mod before;
mod best;
mod changes;
mod component_query;
mod follow;
mod gate;
mod group_paths;
mod heads;
mod leaving;
mod moved;
mod next_window;
mod paths;
mod places;
mod prices;
mod query;
mod record;
mod rests;
mod revised;
mod shown;
mod space;
mod step;
mod still;
mod tracker;
mod trajectory;
mod window;

pub use best::best_trajectory;
pub use record::{MAX_WINDOW, Record, window_is_fixed};
pub use tracker::Tracker;
pub use trajectory::Trajectory;
pub use window::Window;

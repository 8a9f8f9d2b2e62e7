//! Schedules: which threads make how many steps, as a text, a seed or an order of transactions says it; replays of them.
#![tactic(auto)]

mod line;
mod order;
mod play;
mod row;
mod schedule;
mod seed;
mod shown;
mod write;

pub use line::{Line, MOST_STEPS};
pub use order::{TurnsFault, turns};
pub use play::replay;
pub use schedule::{ScheduleFault, read_schedule};
pub use seed::seeded;
pub use shown::timeline;
pub use write::write_schedule;

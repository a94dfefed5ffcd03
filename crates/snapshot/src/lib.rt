// Snapshots: what they list, read exactly as a venue lays them out.
#![tactic(auto)]

mod checks;
pub mod laws;
mod mark;
mod skim;
mod task;
mod walk;

pub use checks::{Counts, check};
pub use mark::Mark;
pub use task::Task;
pub use walk::visit_marks;

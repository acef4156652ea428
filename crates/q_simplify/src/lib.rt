//! A formula is simplified by the rules that there are, and each change goes into a log.
#![tactic(auto)]

mod driving;
mod log_file;
mod options;
mod report;
mod stop;
mod work;

pub use options::Options;
pub use q_sched::{Alarm, Never};
pub use report::{Ending, Report};
pub use work::simplify;

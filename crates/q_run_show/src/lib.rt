//! The command `annotate IN PROOF HINTED`: hints for a refutation. What `disprove` reads as a proof is read once, up to the empty clause, and
//! its steps are written with hints: each is shown by its proof part, but for a deletion, whose proof part names its clause alone. So
//! `disprove IN HINTED` judges by hints alone. `specs/Shows` says what an outcome says of the files and when each status comes,
//! `specs/ShownShares` which text is written. HINTED is created once the empty clause is there. With `--part=I/N` all steps are made, and
//! those of the part are judged and written.
#![tactic(auto)]

mod command;
mod ending;
mod files;
mod law;
mod lent;
mod names;
mod reading;
mod scribe;

pub use command::run;
pub use files::show_files;
pub use law::shown_refutations_disprove;
pub use names::ShowNames;

//! The command `annotate IN OUT LOG HINTED`: a log is checked once, and written with hints. `specs/Annotates` says
//! what an outcome says of the files and when each status comes, `specs/AnnotatedLines` what is put. HINTED is created
//! after the end of LOG was checked. With `--part=I/N` a part of the log is written, by `specs/AnnotatedParts`; `specs/JoinedParts`
//! says what all parts are together.
#![tactic(auto)]

mod annotated;
mod boxed;
mod command;
mod files;
mod law;
mod names;
mod reading;
mod scribe;

pub use annotated::Annotated;
pub use command::{run, run_part};
pub use files::{annotate_files, annotate_part};
pub use law::{
    annotated_is_verified, joined_parts_are_hinted_logs, parts_annotate_what_annotate_does,
};
pub use names::AnnotateNames;

//! The judge's answer.
use q_aig::Certificate;

/// What the judge says of a trace.
#[derive(Drop)]
pub enum Judged {
    /// It is a proof: circuits of the owner's variables.
    Proved(Certificate),
    /// It is none: the first line that is wrong, as a line of the text, and the number of its least fault.
    Refused { line: u64, cause: u8 },
}

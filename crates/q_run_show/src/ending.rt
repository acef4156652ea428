// How the reading of a proof ends.
use q_command::Outcome;

/// The text of a part of a proof with hints, and the number of its steps.
#[derive(Drop)]
pub(crate) struct HintedText {
    pub steps: u64,
    pub text: Vec<u8>,
}

/// How the reading of a proof ends.
#[derive(Drop)]
pub(crate) enum Ending {
    /// The empty clause is there: the text of the steps up to it.
    Shown { hinted: HintedText },
    /// It does not come.
    Refused { why: Outcome },
}

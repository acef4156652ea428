/// How a proof is read: what can be either as a binary proof or as a text; with notes for circuits or without; and whether the steps of a
/// log with hints are judged by these, or as if they had none.
#[derive(Clone, Copy)]
pub(crate) struct Form {
    pub binary: bool,
    pub keeps: bool,
    pub hints: bool,
}

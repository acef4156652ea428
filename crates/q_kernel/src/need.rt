/// What the steps to come may take: words of clauses, ids, fresh variables up to a greatest one, and bytes
/// of log text.
#[derive(Clone, Copy, Debug, PartialEq, Eq)]
pub struct Need {
    pub words: usize,
    pub ids: usize,
    pub vars: usize,
    pub greatest: u32,
    pub log_bytes: usize,
}

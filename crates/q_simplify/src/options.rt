//! What a run of the simplifier is told.
use q_logic::Bounds;

/// How far the rules may go, and after which fall of the measure no further target is taken.
#[derive(Clone, Copy, Debug, PartialEq, Eq)]
pub struct Options {
    pub bounds: Bounds,
    pub budget: Option<u64>,
}

//! Gates as a file has them: the operands go by their places, and a gate may use any other.

/// What a literal stands for when its negation is left out: an input or a gate by its place.
#[derive(Clone, Copy)]
pub enum Source {
    Constant,
    Input(u32),
    Gate(u32),
}

/// A source or its negation.
#[derive(Clone, Copy)]
pub struct Operand {
    pub source: Source,
    pub negated: bool,
}

/// A conjunction.
#[derive(Clone, Copy)]
pub struct Gate {
    pub left: Operand,
    pub right: Operand,
}

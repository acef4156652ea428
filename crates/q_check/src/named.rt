//! What a step speaks of, where three or more travel together.
use q_logic::Lit;

/// A clause in literal order, and the first literal that the step names, which may be its pivot.
#[derive(Clone, Copy)]
pub struct Named<'a> {
    pub clause: &'a [Lit],
    pub first: Option<Lit>,
}

/// A clause, a literal that it is to lose, and the rest of it.
#[derive(Clone, Copy)]
pub struct Cut<'a> {
    pub clause: &'a [Lit],
    pub rest: &'a [Lit],
    pub lit: Lit,
}

/// Literals that are joined with the outer clause on m of each clause that holds m, but of one.
#[derive(Clone, Copy)]
pub struct Sides<'a> {
    pub base: &'a [Lit],
    pub m: Lit,
    pub skip: Option<usize>,
}

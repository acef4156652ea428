//! How large a formula is: of a kernel, and of a canonical text as its bytes come.

use q_kernel::Kernel;
use q_logic::Quant;
use q_prefix::Prefix;

/// How much of each a formula has.
#[derive(Clone, Copy)]
pub(crate) struct Sizes {
    pub clauses: u64,
    pub literals: u64,
    pub variables: u64,
    pub blocks: u64,
}

const NOTHING: Sizes = Sizes {
    clauses: 0,
    literals: 0,
    variables: 0,
    blocks: 0,
};

/// Those of a kernel's formula. It walks over the prefix.
pub(crate) fn sizes_of(kernel: &Kernel) -> Sizes {
    let clauses = kernel.clauses() as u64;
    let prefix = kernel.prefix();
    Sizes {
        clauses,
        // its size counts literals and clauses
        literals: (kernel.size() as u64).saturating_sub(clauses),
        variables: prefix.len() as u64,
        blocks: blocks_of(prefix),
    }
}

fn blocks_of(prefix: &Prefix) -> u64 {
    let mut blocks = 0u64;
    let mut last: Option<Quant> = None;
    let mut at = prefix.first();
    for _ in 0..prefix.len() {
        let Some(bound) = at else {
            return blocks;
        };
        if last != Some(bound.quant) {
            blocks = blocks.saturating_add(1);
        }
        last = Some(bound.quant);
        if !prefix.contains(bound.var) {
            return blocks;
        }
        at = prefix.after(bound.var);
    }
    blocks
}

// What a line of the text is.
#[derive(Clone, Copy, PartialEq, Eq)]
enum Line {
    // the next byte is its first
    Ahead,
    Header,
    Block,
    Clause,
}

/// Counts what stands in a text, as far as it is that of a formula: a header, a line for each block, a line for each clause.
#[derive(Clone, Copy)]
pub(crate) struct Count {
    sizes: Sizes,
    line: Line,
    is_empty: bool,
    is_formula: bool,
}

impl Count {
    pub(crate) fn new() -> Count {
        Count {
            sizes: NOTHING,
            line: Line::Ahead,
            is_empty: true,
            is_formula: false,
        }
    }

    /// Goes on over these bytes.
    pub(crate) fn take(mut self, bytes: &[u8]) -> Count {
        if self.is_empty && !bytes.is_empty() {
            self.is_empty = false;
            self.is_formula = bytes[0] == b'p';
        }
        if !self.is_formula {
            return self;
        }
        for byte in bytes {
            self = self.after(*byte);
        }
        self
    }

    // A blank stands before each number of a block, and behind each literal of a clause. Both end with 0.
    fn after(mut self, byte: u8) -> Count {
        let sizes = &mut self.sizes;
        match (byte, self.line) {
            (b'\n', _) => self.line = Line::Ahead,
            (b'p', Line::Ahead) => self.line = Line::Header,
            (b'e' | b'a', Line::Ahead) => {
                sizes.blocks = sizes.blocks.saturating_add(1);
                self.line = Line::Block;
            }
            (_, Line::Ahead) => {
                sizes.clauses = sizes.clauses.saturating_add(1);
                self.line = Line::Clause;
            }
            (b' ', Line::Block) => sizes.variables = sizes.variables.saturating_add(1),
            (b' ', Line::Clause) => sizes.literals = sizes.literals.saturating_add(1),
            _ => {}
        }
        self
    }

    /// What there was, where it was a formula.
    pub(crate) fn sizes(&self) -> Option<Sizes> {
        if !self.is_formula {
            return None;
        }
        Some(Sizes {
            variables: self.sizes.variables.saturating_sub(self.sizes.blocks),
            ..self.sizes
        })
    }
}

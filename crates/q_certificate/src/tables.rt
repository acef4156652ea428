//! Literals of a graph by variable.
ghost use Rattle.std.specs.Prelude.{◌≡◌};
ghost use Rattle.q_certificate.specs.Standing.{look_at, plain_of, literal_operand};
ghost use Rattle.q_aig.specs.Prelude.{operand_of};

use crate::table::{Table, look};
use q_aig::negate;
use q_logic::Lit;

/// The literals of the universals, which are inputs, and those of the circuits.
#[derive(Drop)]
pub struct Tables {
    pub inputs: Table,
    pub circuits: Table,
}

impl Tables {
    /// The literal of a literal: by its circuit, or else as an input.
    pub fn literal(&self, lit: Lit) -> u64
        ensures { operand_of result ≡ literal_operand self.now.inputs.items self.now.circuits.items
            lit }
    {
        let plain = self.plain(lit.var());
        if lit.negative() { negate(plain) } else { plain }
    }

    fn plain(&self, var: u32) -> u64
        ensures { result ≡ plain_of (look_at self.now.circuits.items var)
            (look_at self.now.inputs.items var) }
    {
        match look(&self.circuits, var) {
            Some(lit) => lit,
            None => match look(&self.inputs, var) {
                Some(lit) => lit,
                None => 0,
            },
        }
    }
}

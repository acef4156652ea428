//! Circuits that are none of a formula: one enum for the commands that judge circuits. The crates below them keep errors of
//! their own, since their contracts speak of different prefixes.
ghost use Rattle.std.specs.Prelude.{◌≡◌};
ghost use Rattle.q_command.specs.Unfits.{line_of_unfit};

use crate::line::{Line, number_line, numbers_line};

/// Why circuits are none of a formula.
#[derive(Clone, Copy, Debug, PartialEq, Eq)]
pub enum Unfit {
    /// A variable that needs a circuit has none.
    MissingOutput { var: u32 },
    /// A circuit is named as a variable that needs none.
    StrangeOutput { var: u32 },
    /// A circuit reads a variable that is no input.
    StrangeInput { var: u32 },
    /// A circuit reads an input that does not stand before its variable.
    Reads { var: u32, input: u32 },
}

impl Unfit {
    pub fn line(&self) -> Line
        ensures { result.bytes ≡ line_of_unfit self.now }
    {
        match *self {
            Unfit::MissingOutput { var } => number_line("circuits missing ", u64::from(var)),
            Unfit::StrangeOutput { var } => number_line("circuits strange output ", u64::from(var)),
            Unfit::StrangeInput { var } => number_line("circuits strange input ", u64::from(var)),
            Unfit::Reads { var, input } => {
                numbers_line("circuits ", u64::from(var), " reads ", u64::from(input))
            }
        }
    }
}

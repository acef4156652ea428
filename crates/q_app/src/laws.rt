//! Laws on the definitions: each is the contract of a function that does nothing, or that calls a law below.
ghost use Rattle.std.specs.Prelude.{◌≢◌, ◌≤◌, List, ℕ, length, Some};
ghost use Rattle.q_logic.specs.Prelude.{PrenexFormula};
ghost use Rattle.q_io.specs.Files.{Disk, bytes_at};
ghost use Rattle.q_simplify.specs.declared.options.Options.{Options};
ghost use Rattle.q_simplify.specs.declared.report.Report.{Report};
ghost use Rattle.q_simplify.specs.Results.{Simplifies};
ghost use Rattle.q_command.specs.Checks.{IsFileOf, IsVerified};
ghost use Rattle.q_app.specs.FirstMoves.{FirstMoves};
ghost use Rattle.q_app.specs.Headline.{Headline};
ghost use Rattle.q_app.specs.Further.{Further};
ghost use Rattle.q_app.specs.Completeness.{EachCompletes};

use q_log::texts_are_read;

/// Over the files that `simplify` left, the log leads from the one formula to the other, so `check` verifies it; it
/// reads no log of more bytes than the limit.
pub fn simplified_is_verified()
    ensures { (o : Options) → (F : PrenexFormula) → (r : Report) → (input output log : List ℕ)
        → (before after : Disk) → input ≢ output → input ≢ log → IsFileOf (bytes_at before input) F
        → Simplifies o F r output log before (Some after)
        → length (bytes_at after log) ≤ 1099511627776
        → IsVerified (bytes_at after input) (bytes_at after output) (bytes_at after log) }
{
    texts_are_read();
}

/// The three commands are right together.
pub fn headline()
    ensures { Headline }
{
    texts_are_read();
}

/// Where no fault comes and the inputs are in their grammars, each command's answer comes, or memory is wanting.
pub fn completeness()
    ensures { EachCompletes }
{}

/// Over one log, what two calls of `rebuild` write agrees in the first rounds where what they were given does.
pub fn first_moves_make_first_moves()
    ensures { FirstMoves }
{}

/// The commands over circuits are right together.
pub fn further()
    ensures { Further }
{}

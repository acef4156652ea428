// The clauses of a random formula: four words of the generator (PCG, O'Neill 2014) make one clause of four literals,
// one of the first block, one of the second and two of the third.
ghost use Rattle.std.specs.Prelude.{◌≡◌, ◌≤◌, ◌<◌, ◌+◌, ◌^◌, ℕ, suc, ◌++◌, [], ◌∷◌, OnOk};
ghost use Rattle.rand_core.specs.Steps.{first_words};
ghost use Rattle.rand_pcg.specs.Pcg.{pcg32};
ghost use Rattle.q_logic.specs.Prelude.{clause_of};
ghost use Rattle.q_gen.specs.Generated.{literal_of, clauses_by};

use q_logic::{Clauses, Lit, NoMemory, sort_clause};
use rand_core::utils::NextWord;
use rand_pcg::Lcg64Xsh32;

// From this word on, a literal is negative.
const FIRST_NEGATIVE: u32 = 2_147_483_648;

// The literal of a word, of one of `count` variables from `first` on.
fn literal(word: u32, first: u32, count: u32) -> Lit
    requires some { 0 < count }
    requires positive { 1 ≤ first }
    requires small { first + count ≤ 2 ^ 31 }
    ensures { result ≡ literal_of first count word }
{
    Lit::new(first + word % count, word >= FIRST_NEGATIVE)
}

/// Draws the literals of the next clause, by the next four words.
pub(crate) fn draw(words: &mut Lcg64Xsh32, width: u32) -> [Lit; 4]
    requires some { 0 < width }
    requires small { width ≤ 20001 }
    ensures { (k : ℕ) → clauses_by width (first_words pcg32 (suc (suc (suc (suc k)))) words.old)
        ≡ clause_of result ∷ clauses_by width (first_words pcg32 k words.new) }
{
    let first = words.next_word();
    let second = words.next_word();
    let third = words.next_word();
    let fourth = words.next_word();
    [
        literal(first, 1, width),
        literal(second, width + 1, width),
        literal(third, 2 * width + 1, 2 * width),
        literal(fourth, 2 * width + 1, 2 * width),
    ]
}

/// Puts the clause of these literals behind the others; `clause` is lent for its memory.
pub(crate) fn put_clause(
    clauses: &mut Clauses,
    clause: &mut Vec<Lit>,
    drawn: [Lit; 4],
) -> Result<(), NoMemory>
    ensures { OnOk result (clauses.new ≡ clauses.old ++ clause_of drawn ∷ []) }
{
    clause.clear();
    clause.extend_from_slice(&drawn)?;
    sort_clause(clause);
    clauses.push(clause)
}

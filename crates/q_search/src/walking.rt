//! Searches that keep their path in a row. Of a node's data structure they know the three calls of `Position` alone.
ghost use Rattle.std.specs.Prelude.{◌≡◌, ◌&&◌, ◌++◌, ◌∷◌, [], not, IfOk, OnOk, MatchOption};
ghost use Rattle.q_logic.specs.declared.verdict.Verdict.TheVariants.{Open};
ghost use Rattle.q_logic.specs.Prelude.{goes_on};
ghost use Rattle.q_search.specs.Walks.{Walk, moved, said_here, IsInner, IsLast, IsTurned, IsEnding, IsLostAt, AreUniversal};

use crate::budget::pay;
use q_logic::{NoMemory, Quant, Verdict};

/// A node of a search that can be moved. How it finds its verdict is its own matter.
pub trait Position {
    /// The search and the node.
    ghost seen: { Self → Walk };

    /// The second is a later state of the first: what the search is about has stayed.
    ghost Keeps: { Self → Self → Type 0 };

    /// What the test says of the node.
    fn verdict(&mut self) -> Result<Verdict, NoMemory>
        ensures value { IfOk result (λ v. v ≡ said_here (seen self.old)) }
        ensures open { IfOk result (λ v. v ≡ Open → IsInner (seen self.old)) }
        ensures same { seen self.new ≡ seen self.old }
        ensures kept { Keeps self.old self.new };

    /// Gives the next variable a value.
    fn down(&mut self, value: bool) -> Result<(), NoMemory>
        requires { IsInner (seen self.old) }
        ensures ok { OnOk result (seen self.new ≡ moved (seen self.old) ((seen self.old).path
            ++ value ∷ [])) }
        ensures kept { Keeps self.old self.new };

    /// Takes the last value back, and tells it with the quantifier of its variable.
    fn up(&mut self) -> Option<(Quant, bool)>
        ensures last { MatchOption result (((seen self.old).path ≡ [])
            × (seen self.new ≡ seen self.old))
            (λ p. IsLast (seen self.old) (seen self.new) p.0 p.1) }
        ensures kept { Keeps self.old self.new };

    ghost keeps_itself: { (x : Self) → Keeps x x };

    ghost keeps_on: { (x y z : Self) → Keeps x y → Keeps y z → Keeps x z };
}

/// How a search ends.
#[derive(Clone, Copy, Debug, PartialEq, Eq)]
pub enum Ending {
    AllWon,
    AllLost,
    Unknown,
}

// Whether the value 1 is still to be tried.
fn has_second(quant: Quant, value: bool, won: bool) -> bool
    ensures { result ≡ (not value && goes_on quant won) }
{
    match quant {
        Quant::Exists => !value && !won,
        Quant::Forall => !value && won,
    }
}

// From a node that is won or not, to the next node that has to be looked at.
fn backtrack<N: Position>(node: &mut N, won: bool) -> Result<bool, NoMemory>
    ensures turned { IfOk result (λ more. IsTurned (N.seen node.old) (N.seen node.new) won more) }
    ensures kept { N.Keeps node.old node.new }
{
    while let Some((quant, value)) = node.up() {
        if has_second(quant, value, won) {
            node.down(true)?;
            return Ok(true);
        }
    }
    Ok(false)
}

/// Whether the node without values is won, within a budget of decisions.
pub fn decide<N: Position>(node: &mut N, budget: Option<u64>) -> Result<Ending, NoMemory>
    requires { (N.seen node.old).path ≡ [] }
    ensures ending { IfOk result (λ e. IsEnding (N.seen node.old) budget e) }
    ensures kept { N.Keeps node.old node.new }
{
    let mut left = budget;
    loop {
        match node.verdict()? {
            Verdict::Open => {
                if !pay(&mut left) {
                    return Ok(Ending::Unknown);
                }
                node.down(false)?;
            }
            Verdict::Won => {
                if !backtrack(node, true)? {
                    return Ok(Ending::AllWon);
                }
            }
            Verdict::Lost => {
                if !backtrack(node, false)? {
                    return Ok(Ending::AllLost);
                }
            }
        }
    }
}

/// Looks for a lost node among those of universals, within a budget of decisions, and stops there.
pub fn find_lost<N: Position>(node: &mut N, budget: Option<u64>) -> Result<Ending, NoMemory>
    requires start { (N.seen node.old).path ≡ [] }
    requires universal { AreUniversal (N.seen node.old).prefix }
    ensures ending { IfOk result (λ e. IsLostAt (N.seen node.old) (N.seen node.new) budget e) }
    ensures kept { N.Keeps node.old node.new }
{
    let mut left = budget;
    loop {
        match node.verdict()? {
            Verdict::Open => {
                if !pay(&mut left) {
                    return Ok(Ending::Unknown);
                }
                node.down(false)?;
            }
            Verdict::Won => {
                if !backtrack(node, true)? {
                    return Ok(Ending::AllWon);
                }
            }
            Verdict::Lost => return Ok(Ending::AllLost),
        }
    }
}

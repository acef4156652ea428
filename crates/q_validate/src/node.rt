//! A node of the search for a false clause: the values of the first inputs. One pass over the gates tells what the clauses
//! say of many nodes, and is kept while the search stays among these: of a *line*, down to the last input, where the
//! search goes deep, or of a *block*, the five levels below a node, where it turns near its leaves. So n inputs that all
//! get values cost three passes, and 32 leaves beside each other one.
ghost use Rattle.std.specs.Prelude.{◌≡◌, ◌≤◌, ◌<◌, ◌+◌, ◌++◌, ◌∷◌, [], ℕ, false, length, Some, None, IfOk, IfSome, OnOk, OnErr, MatchOption};
ghost use Rattle.q_logic.specs.declared.verdict.Verdict.TheVariants.{Open};
ghost use Rattle.q_logic.specs.Prelude.{is_existential, trees_of, given};
ghost use Rattle.q_logic.specs.Branches.{as_prefix};
ghost use Rattle.q_aig.specs.Prelude.{IsNet, net_of};
ghost use Rattle.q_certificate.specs.Prelude.{AreCircuits};
ghost use Rattle.q_search.specs.Walks.{said_here, IsInner};
ghost use Rattle.q_validate.specs.Stands.{claim_at, walk_of, IsBlock, IsLine, IsPlace};

use crate::known::fill;
use crate::line::Since;
use crate::words::{DEPTH, Known, node_at};
use q_aig::Certificate;
use q_certificate::Table;
use q_logic::{Bound, Formula, NoMemory, Quant, Verdict};
use q_search::{PlaceTable, Position};
use std::alloc::Global;
use std::marker::Model;
use std::mem::replace;

mod clauses;
mod counter;

/// What is known of the formula at a node after so many values, and at the nodes of the five levels below it.
#[derive(Clone, Copy)]
pub struct Block {
    pub base: usize,
    pub told: Known,
}

/// What is known of it at a node after so many values, and at those to which zeros lead from there.
#[derive(Clone, Copy)]
pub struct Line {
    pub base: usize,
    pub told: Since,
}

/// The values of the first inputs, in a certificate whose circuits are to be Skolem functions of a formula.
#[derive(Drop)]
pub struct Node<'a> {
    formula: &'a Formula,
    certificate: &'a Certificate,
    circuits: Table,
    places: PlaceTable,
    path: Vec<bool>,
    block: Option<Block>,
    line: Option<Line>,
    // The length of the path at the last leaf.
    reach: usize,
    row: Vec<Known>,
    line_row: Vec<Since>,
}

impl<'a> Model for Node<'a> {
    ghost use Rattle.q_validate.specs.Stands.{Spot, IsStand};

    ghost Value = { Spot };

    ghost view = { λ n. record {
      formula = n.formula.now;
      certificate = n.certificate.now;
      path = n.path.items;
    } };

    ghost invariant = { λ n. IsStand n.formula.now n.certificate.now n.circuits.items n.places
        n.path.items n.block n.line };
}

// The inputs as a prefix of universals.
fn universals(alloc: Global, names: &[u32]) -> Result<Vec<Bound>, NoMemory>
    ensures { IfOk result (λ prefix. prefix.items ≡ as_prefix names.now) }
{
    let mut prefix = Vec::new(alloc);
    for name in names {
        prefix.push(Bound {
            quant: Quant::Forall,
            var: *name,
        })?;
    }
    Ok(prefix)
}

// Where a block begins that is to hold the leaves at a depth: five inputs above them, or at the node itself.
fn base_of(values: usize, leaves: usize) -> usize
    requires { values ≤ leaves }
    ensures within { result ≤ values }
    ensures near { values ≤ result + 5 }
{
    values.min(leaves.saturating_sub(DEPTH))
}

// The block, if the node after so many values is in it.
fn kept(block: Option<Block>, values: usize) -> Option<Block>
    ensures { IfSome result (λ b. (block ≡ Some b) × (b.base ≤ values)) }
{
    match block {
        Some(found) if found.base <= values => block,
        _ => None,
    }
}

// The line, if one more value leads along it.
fn straight(line: Option<Line>, value: bool) -> Option<Line>
    ensures { IfSome result (λ l. (line ≡ Some l) × (value ≡ false)) }
{
    if value { None } else { line }
}

impl<'a> Node<'a> {
    /// The node without values.
    pub fn start(
        alloc: Global,
        formula: &'a Formula,
        certificate: &'a Certificate,
        circuits: Table,
    ) -> Result<Node<'a>, NoMemory>
        requires circuits { AreCircuits (net_of certificate.now) (trees_of certificate.now)
            circuits.items }
        requires trees { (x : ℕ) → given (trees_of certificate.now x)
            ≡ is_existential formula.now.prefix x }
        ensures { IfOk result (λ n. n ≡ record {
          formula = formula.now;
          certificate = certificate.now;
          path = [];
        }) }
    {
        let prefix = universals(alloc, certificate.aig().inputs())?;
        let places = PlaceTable::of(alloc, &prefix)?;
        Ok(Node {
            formula,
            certificate,
            circuits,
            places,
            path: Vec::new(alloc),
            block: None,
            line: None,
            reach: 0,
            row: Vec::new(alloc),
            line_row: Vec::new(alloc),
        })
    }

    // The place of an input among the inputs.
    fn place(&self, var: u32) -> Option<usize>
        ensures place { IsPlace self.now.certificate.inputs var result }
        ensures net { IsNet (net_of self.now.certificate) }
    {
        let place = self.places.place(var);
        if place < self.certificate.aig().inputs().len() {
            return Some(place);
        }
        None
    }

    // What the clauses say of the nodes below the first values.
    fn survey(&self, base: usize, row: &mut Vec<Known>) -> Result<Block, NoMemory>
        requires { base ≤ length self.now.path }
        ensures base { IfOk result (λ b. b.base ≡ base) }
        ensures block { IfOk result (λ b. IsBlock (claim_at self.now) self.now.path (Some b)) }
    {
        let path = &self.path[..base];
        fill(self.certificate.aig(), path, row)?;
        Ok(Block {
            base,
            told: self.formula_known(path, row),
        })
    }

    // The block that is there, if the node is in it.
    fn near_block(&self) -> Option<Block>
        ensures near { IfSome result (λ b. length self.now.path ≤ b.base + 5) }
        ensures block { IfSome result (λ b. IsBlock (claim_at self.now) self.now.path (Some b)) }
    {
        match self.block {
            Some(block) if self.path.len() - block.base <= DEPTH => Some(block),
            _ => None,
        }
    }

    // How many values the next leaf may have.
    fn leaves(&self) -> usize
        ensures { length self.now.path ≤ result }
    {
        if self.reach < self.path.len() {
            return self.certificate.aig().inputs().len();
        }
        self.reach
    }

    // A new block.
    fn renew(&mut self) -> Result<Block, NoMemory>
        ensures same { self.new ≡ self.old }
        ensures near { IfOk result (λ b. length self.old.path ≤ b.base + 5) }
        ensures block { IfOk result (λ b. IsBlock (claim_at self.old) self.old.path (Some b)) }
    {
        let base = base_of(self.path.len(), self.leaves());
        let mut row = replace(&mut self.row, Vec::new(*self.path.allocator()));
        let block = self.survey(base, &mut row)?;
        self.row = row;
        self.block = Some(block);
        Ok(block)
    }

    // What the clauses say of the nodes to which zeros lead from here.
    fn look_down(&self, row: &mut Vec<Since>) -> Result<Line, NoMemory>
        ensures { IfOk result (λ l. IsLine (claim_at self.now) self.now.path (Some l)) }
    {
        fill(self.certificate.aig(), &self.path, row)?;
        Ok(Line {
            base: self.path.len(),
            told: self.formula_known(&self.path, row),
        })
    }

    // A new line.
    fn draw(&mut self) -> Result<Line, NoMemory>
        ensures same { self.new ≡ self.old }
        ensures line { IfOk result (λ l. IsLine (claim_at self.old) self.old.path (Some l)) }
    {
        let mut row = replace(&mut self.line_row, Vec::new(*self.path.allocator()));
        let line = self.look_down(&mut row)?;
        self.line_row = row;
        self.line = Some(line);
        Ok(line)
    }

    // Whether the next leaf is likely to lie deeper than two blocks go.
    fn goes_deep(&self) -> bool {
        self.leaves().saturating_sub(self.path.len()) > 2 * DEPTH + 1
    }

    // What the clauses say of the node, by what is there or by a new pass.
    fn find_verdict(&mut self) -> Result<Verdict, NoMemory>
        ensures same { self.new ≡ self.old }
        ensures value { IfOk result (λ v. v ≡ said_here (walk_of self.old)) }
    {
        if let Some(block) = self.near_block() {
            return Ok(self.look(block));
        }
        if let Some(line) = self.line {
            return Ok(self.look_along(line));
        }
        if self.goes_deep() {
            let line = self.draw()?;
            return Ok(self.look_along(line));
        }
        let block = self.renew()?;
        Ok(self.look(block))
    }

    // Notes how deep a leaf is.
    fn note(&mut self, verdict: Verdict)
        ensures { self.new ≡ self.old }
    {
        if let Verdict::Won = verdict {
            self.reach = self.path.len();
        }
    }

    fn give(&mut self, value: bool) -> Result<(), NoMemory>
        requires { length self.old.path < length self.old.certificate.inputs }
        ensures ok { OnOk result (self.new ≡ record {
          formula = self.old.formula;
          certificate = self.old.certificate;
          path = self.old.path ++ value ∷ [];
        }) }
        ensures err { OnErr result (self.new ≡ self.old) }
    {
        self.path.push(value)?;
        self.line = straight(self.line, value);
        Ok(())
    }

    fn take_back(&mut self) -> Option<bool>
        ensures { MatchOption result ((self.old.path ≡ []) × (self.new ≡ self.old))
            (λ v. (self.old ≡ record {
              formula = self.new.formula;
              certificate = self.new.certificate;
              path = self.new.path ++ v ∷ [];
            })
            × (length self.new.path < length self.new.certificate.inputs)) }
    {
        let value = self.path.pop()?;
        self.block = kept(self.block, self.path.len());
        self.line = None;
        Some(value)
    }

    // What the clauses say of the node, by its block.
    fn look(&self, block: Block) -> Verdict
        requires near { length self.now.path ≤ block.base + 5 }
        requires block { IsBlock (claim_at self.now) self.now.path (Some block) }
        ensures { result ≡ said_here (walk_of self.now) }
    {
        let node = node_at(&self.path[block.base..]);
        block.told.at(node)
    }

    // The same by its line.
    fn look_along(&self, line: Line) -> Verdict
        requires { IsLine (claim_at self.now) self.now.path (Some line) }
        ensures { result ≡ said_here (walk_of self.now) }
    {
        line.told.at(self.path.len() - line.base)
    }
}

impl<'a> Position for Node<'a> {
    ghost use Rattle.q_validate.specs.Stands.{walk_of, KeepsClaim, KeepsClaim-itself, KeepsClaim-on};

    ghost seen = { walk_of };

    ghost Keeps = { KeepsClaim };

    fn verdict(&mut self) -> Result<Verdict, NoMemory> {
        let verdict = self.find_verdict()?;
        self.note(verdict);
        Ok(verdict)
    }

    fn down(&mut self, value: bool) -> Result<(), NoMemory> {
        self.give(value)
    }

    fn up(&mut self) -> Option<(Quant, bool)> {
        match self.take_back() {
            None => None,
            Some(value) => Some((Quant::Forall, value)),
        }
    }

    ghost keeps_itself = { KeepsClaim-itself };

    ghost keeps_on = { KeepsClaim-on };
}

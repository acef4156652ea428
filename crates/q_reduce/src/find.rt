//! The search for a target, place by place.
ghost use Rattle.std.specs.Prelude.{◌≡◌, ◌≤◌, ◌<◌, Some, IfOk};
ghost use Rattle.q_logic.specs.Prelude.{greatest, Clause, slot, place};
ghost use Rattle.q_kernel.specs.Prelude.{slots};
ghost use Rattle.q_reduce.specs.Targets.{target_of};
ghost use Rattle.q_reduce.specs.Learned.{IsFitFor};
ghost use Rattle.q_rule.specs.Searching.{IsFound, IsAt};
ghost use Rattle.q_reduce.specs.Searches.{IsBetween, IsCutOf, IsOfClause, IsOfVariable};

use crate::dispatch::fits;
use crate::search::Search;
use crate::target::Target;
use q_kernel::{ClauseId, Kernel};
use q_logic::{Lit, NoMemory};

/// A target that fits, at the first place from a number on at which one does.
pub fn find_from(
    kernel: &Kernel,
    search: &mut Search,
    from: u32,
) -> Result<Option<Target>, NoMemory>
    requires { IsFitFor kernel.now search.old }
    ensures found { IfOk result (IsFound target_of kernel.now (λ t. from ≤ place (target_of t))) }
    ensures fit { IsFitFor kernel.now search.new }
{
    let end = after_variables(kernel);
    let found = find_among_variables(kernel, search, from, end)?;
    if found.is_some() {
        return Ok(found);
    }
    let behind = find_behind(kernel, search, from.max(end))?;
    Ok(behind)
}

// The first number above all variables.
fn after_variables(kernel: &Kernel) -> u32
    ensures { greatest kernel.now.prefix < result }
{
    kernel.sound();
    kernel.greatest_var() + 1
}

// A target at one of the places that may be those of variables.
fn find_among_variables(
    kernel: &Kernel,
    search: &mut Search,
    from: u32,
    end: u32,
) -> Result<Option<Target>, NoMemory>
    requires { IsFitFor kernel.now search.old }
    ensures found { IfOk result (IsFound target_of kernel.now (IsBetween from end)) }
    ensures fit { IsFitFor kernel.now search.new }
{
    for place in from..end {
        let found = find_at(kernel, search, place)?;
        if found.is_some() {
            return Ok(found);
        }
    }
    Ok(None)
}

// A target of a clause behind all variables.
fn find_behind(kernel: &Kernel, search: &mut Search, start: u32) -> Result<Option<Target>, NoMemory>
    requires behind { greatest kernel.now.prefix < start }
    requires fit { IsFitFor kernel.now search.old }
    ensures found { IfOk result (IsFound target_of kernel.now (λ t. start ≤ place (target_of t))) }
    ensures fit { IsFitFor kernel.now search.new }
{
    for c in kernel.ids_from(start) {
        let found = find_in(kernel, search, c)?;
        if found.is_some() {
            return Ok(found);
        }
    }
    Ok(None)
}

// A target at a place: of its clause, or else of its variable.
fn find_at(kernel: &Kernel, search: &mut Search, place: u32) -> Result<Option<Target>, NoMemory>
    requires { IsFitFor kernel.now search.old }
    ensures found { IfOk result (IsFound target_of kernel.now (IsAt target_of place)) }
    ensures fit { IsFitFor kernel.now search.new }
{
    let found = find_in(kernel, search, place)?;
    if found.is_some() {
        return Ok(found);
    }
    let pure = find_pure(kernel, search, place)?;
    Ok(pure)
}

// A target of a clause.
fn find_in(kernel: &Kernel, search: &mut Search, c: ClauseId) -> Result<Option<Target>, NoMemory>
    requires { IsFitFor kernel.now search.old }
    ensures found { IfOk result (IsFound target_of kernel.now (IsOfClause c)) }
    ensures fit { IsFitFor kernel.now search.new }
{
    if !kernel.live(c) {
        return Ok(None);
    }
    let tautology = Target::Tautology { c };
    if fits(kernel, search, &tautology)? {
        return Ok(Some(tautology));
    }
    let unit = Target::Unit { c };
    if fits(kernel, search, &unit)? {
        return Ok(Some(unit));
    }
    let cut = find_cut(kernel, search, c)?;
    Ok(cut)
}

// A literal that may leave a clause.
fn find_cut(kernel: &Kernel, search: &mut Search, c: ClauseId) -> Result<Option<Target>, NoMemory>
    requires live { (C : Clause) × (slot (slots kernel.now) c ≡ Some C) }
    requires fit { IsFitFor kernel.now search.old }
    ensures found { IfOk result (IsFound target_of kernel.now (IsCutOf c)) }
    ensures fit { IsFitFor kernel.now search.new }
{
    for l in kernel.lits(c) {
        let cut = Target::Cut { c, l: *l };
        if fits(kernel, search, &cut)? {
            return Ok(Some(cut));
        }
    }
    Ok(None)
}

// A pure literal of a variable.
fn find_pure(kernel: &Kernel, search: &mut Search, var: u32) -> Result<Option<Target>, NoMemory>
    requires { IsFitFor kernel.now search.old }
    ensures found { IfOk result (IsFound target_of kernel.now (IsOfVariable var)) }
    ensures fit { IsFitFor kernel.now search.new }
{
    kernel.sound();
    if !kernel.prefix().contains(var) {
        return Ok(None);
    }
    let positive = Target::Pure {
        l: Lit::new(var, false),
    };
    if fits(kernel, search, &positive)? {
        return Ok(Some(positive));
    }
    let negative = Target::Pure {
        l: Lit::new(var, true),
    };
    if fits(kernel, search, &negative)? {
        return Ok(Some(negative));
    }
    Ok(None)
}

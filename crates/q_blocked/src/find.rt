//! The search for a target, clause by clause.
ghost use Rattle.std.specs.Prelude.{◌≡◌, ◌≤◌, Some, IfOk};
ghost use Rattle.q_logic.specs.Prelude.{Clause, IsIn, slot, place};
ghost use Rattle.q_kernel.specs.Prelude.{slots};
ghost use Rattle.q_blocked.specs.Targets.{target_of};
ghost use Rattle.q_watch.specs.Watches.{AreRightFor};
ghost use Rattle.q_blocked.specs.Units.{AreRight};
ghost use Rattle.q_blocked.specs.Notes.{AreApart};
ghost use Rattle.q_rule.specs.Searching.{IsFound, IsAt};
ghost use Rattle.q_blocked.specs.Searches.{IsPivotOf, IsOn, IsWithin};
ghost use Rattle.q_blocked.specs.Learned.{IsRightFor};

use crate::blocked::may_drop;
use crate::clashing::{all_clash, fill};
use crate::cover::fits_cover;
use crate::search::Search;
use crate::target::Target;
use q_kernel::{ClauseId, Kernel};
use q_logic::{Lit, NoMemory};
use q_rule::{Queue, is_existential};

/// A target that fits, of the first clause from a number on that has one.
pub fn find_from(
    kernel: &Kernel,
    search: &mut Search,
    from: u32,
) -> Result<Option<Target>, NoMemory>
    ensures { IfOk result (IsFound target_of kernel.now (λ t. from ≤ place (target_of t))) }
{
    search.units.forget();
    search.watches.forget();
    search.apart.forget();
    for c in kernel.ids_from(from) {
        let found = find_at(kernel, search, c)?;
        if found.is_some() {
            return Ok(found);
        }
    }
    Ok(None)
}

/// A target that fits, of the first clause that has one from a number on and below another. What the search has learned is right for
/// the kernel, and is so after.
pub fn find_between(
    kernel: &Kernel,
    search: &mut Search,
    from: u32,
    upto: u32,
) -> Result<Option<Target>, NoMemory>
    requires right { IsRightFor kernel.now search.old }
    ensures found { IfOk result (IsFound target_of kernel.now (IsWithin from upto)) }
    ensures right { IsRightFor kernel.now search.new }
{
    for c in from..upto {
        let found = find_near(kernel, search, c)?;
        if found.is_some() {
            return Ok(found);
        }
    }
    Ok(None)
}

// A target at a place, where a clause may be.
fn find_near(kernel: &Kernel, search: &mut Search, c: u32) -> Result<Option<Target>, NoMemory>
    requires right { IsRightFor kernel.now search.old }
    ensures found { IfOk result (IsFound target_of kernel.now (IsAt target_of c)) }
    ensures right { IsRightFor kernel.now search.new }
{
    if kernel.live(c) {
        return find_at(kernel, search, c);
    }
    Ok(None)
}

// A target of a clause: of one of its literals, or else of all.
fn find_at(kernel: &Kernel, search: &mut Search, c: ClauseId) -> Result<Option<Target>, NoMemory>
    requires live { (C : Clause) × (slot (slots kernel.now) c ≡ Some C) }
    requires units { AreRight (slots kernel.now) search.old.units }
    requires watches { AreRightFor kernel.now search.old.watches }
    requires apart { AreApart kernel.now search.old.apart }
    ensures found { IfOk result (IsFound target_of kernel.now (IsAt target_of c)) }
    ensures units { AreRight (slots kernel.now) search.new.units }
    ensures watches { AreRightFor kernel.now search.new.watches }
    ensures apart { AreApart kernel.now search.new.apart }
{
    let found = find_pivot(kernel, &mut search.growth.set, c)?;
    if found.is_some() {
        return Ok(found);
    }
    if fits_cover(kernel, search, c)? {
        return Ok(Some(Target::Cover { c }));
    }
    Ok(None)
}

// A target of a literal of a clause. The literals of the clause are marked once for all of them.
fn find_pivot(kernel: &Kernel, set: &mut Queue, c: ClauseId) -> Result<Option<Target>, NoMemory>
    requires { (C : Clause) × (slot (slots kernel.now) c ≡ Some C) }
    ensures { IfOk result (IsFound target_of kernel.now (IsPivotOf c)) }
{
    let clause = kernel.lits(c);
    fill(set, clause)?;
    for l in clause {
        let found = target_on(kernel, set, c, *l);
        if found.is_some() {
            return Ok(found);
        }
    }
    Ok(None)
}

// The target of a literal of a clause, whose literals are the set.
fn target_on(kernel: &Kernel, set: &Queue, c: ClauseId, l: Lit) -> Option<Target>
    requires { (slot (slots kernel.now) c ≡ Some set.now) × IsIn l set.now }
    ensures { IsFound target_of kernel.now (IsOn c l) result }
{
    kernel.sound();
    if is_existential(kernel, l.var()) {
        if all_clash(kernel, set, c, l) {
            return Some(Target::Blocked { c, l });
        }
    } else if may_drop(kernel, set, c, l) {
        return Some(Target::BlockedForall { c, l });
    }
    None
}

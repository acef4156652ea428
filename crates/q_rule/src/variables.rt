//! What the prefix of a kernel says of a variable.
ghost use Rattle.std.specs.Prelude.{◌≡◌, true, Some};
ghost use Rattle.q_logic.specs.Prelude.{Clause, is_bound, is_existential, is_universal, inner_existential, ArePairs, IsBelow, Within, slot};
ghost use Rattle.q_kernel.specs.Prelude.{slots};
ghost use Rattle.q_rule.specs.Quants.{is_some_exists, is_some_forall};

use q_kernel::{ClauseId, Kernel};
use q_logic::{Lit, Quant};

fn says_exists(quant: Option<Quant>) -> bool
    ensures { result ≡ is_some_exists quant }
{
    matches!(quant, Some(Quant::Exists))
}

fn says_forall(quant: Option<Quant>) -> bool
    ensures { result ≡ is_some_forall quant }
{
    matches!(quant, Some(Quant::Forall))
}

/// Whether a variable is an existential of the prefix.
pub fn is_existential(kernel: &Kernel, var: u32) -> bool
    ensures { result ≡ is_existential kernel.now.prefix var }
{
    says_exists(kernel.prefix().quant(var))
}

/// Whether a variable is a universal of the prefix.
pub fn is_universal(kernel: &Kernel, var: u32) -> bool
    ensures { result ≡ is_universal kernel.now.prefix var }
{
    says_forall(kernel.prefix().quant(var))
}

/// Whether a variable is existential and inner to another.
pub fn is_inner(kernel: &Kernel, var: u32, u: u32) -> bool
    requires { is_bound kernel.now.prefix u ≡ true }
    ensures { result ≡ inner_existential kernel.now.prefix u var }
{
    is_existential(kernel, var) && !kernel.prefix().outer_or_same(var, u)
}

/// The clause of an id. Its literals are in order, and their variables in the prefix.
pub fn clause_of(kernel: &Kernel, id: ClauseId) -> &[Lit]
    requires { (C : Clause) × (slot (slots kernel.now) id ≡ Some C) }
    ensures clause { slot (slots kernel.now) id ≡ Some result.now }
    ensures within { Within kernel.now.prefix result.now }
    ensures ordered { ArePairs IsBelow result.now }
{
    kernel.sound();
    kernel.lits(id)
}

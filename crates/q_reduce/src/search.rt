//! What searches lend each other.
ghost use Rattle.std.specs.Prelude.{◌≡◌, ◌↔◌, true, Some, IfOk, IsTrue};
ghost use Rattle.q_logic.specs.Prelude.{negation, Clause, IsIn, is_universal, Reducible, slot, others};
ghost use Rattle.q_kernel.specs.Prelude.{slots};
ghost use Rattle.q_reduce.specs.Learned.{nothing_learned, IsFitFor};

use crate::forests::Forests;
use crate::reach::is_reducible;
use crate::recent::RecentRegions;
use q_kernel::{ClauseId, Kernel};
use q_logic::{Lit, NoMemory};
use q_rule::Queue;
use std::marker::Model;

/// What searches lend each other: room for walks, and regions and forests, which have to be those of the kernel. Regions stay so
/// while the targets of this crate are taken; forests, which only tell what may not be taken, go with each. Where a kernel is
/// changed in another way, the search has to forget them.
#[derive(Drop)]
pub struct Search {
    pub(crate) queue: Queue,
    pub(crate) forests: Forests,
    pub(crate) recent: RecentRegions,
}

impl Model for Search {
    ghost use Rattle.q_reduce.specs.Learned.{Learned};

    ghost Value = { Learned };

    ghost view = { λ s. record { regions = s.recent; forests = s.forests } };
}

impl Search {
    /// Makes the search fit for any kernel.
    pub fn forget(&mut self)
        ensures { self.new ≡ nothing_learned }
    {
        self.recent.forget();
        self.forests.forget();
    }

    /// Whether a universal literal may leave its clause: by a walk, where nothing tells it before.
    pub(crate) fn may_drop(
        &mut self,
        kernel: &Kernel,
        c: ClauseId,
        lit: Lit,
    ) -> Result<bool, NoMemory>
        requires live { (C : Clause) × (slot (slots kernel.now) c ≡ Some C) × IsIn lit C
            × (IsIn (negation lit) C → ⊥) }
        requires universal { is_universal kernel.now.prefix lit.var ≡ true }
        requires fit { IsFitFor kernel.now self.old }
        ensures yes { IfOk result (λ yes.
            (C : Clause) → slot (slots kernel.now) c ≡ Some C
            → IsTrue yes ↔ Reducible kernel.now.prefix (others c (slots kernel.now)) C lit) }
        ensures fit { IsFitFor kernel.now self.new }
    {
        if kernel.count(lit.negated()) == 0 {
            return Ok(true);
        }
        if self.recent.separate(kernel, c, lit) {
            return Ok(true);
        }
        if self.forests.keep(kernel, c, lit)? {
            return Ok(false);
        }
        let mut looks = 0;
        let reducible = is_reducible(kernel, &mut self.queue, c, lit, &mut looks)?;
        self.forests.adapt(looks);
        if reducible {
            self.recent.learn(kernel, lit.var(), looks)?;
        } else {
            self.forests
                .note(kernel, &mut self.queue, c, lit.var(), looks)?;
        }
        Ok(reducible)
    }
}

//! Regions of several blocks.
ghost use Rattle.std.specs.Prelude.{◌≡◌, [], true, Some, IsTrue};
ghost use Rattle.q_logic.specs.Prelude.{negation, Clause, IsIn, is_universal, is_bound, Reducible, slot, others};
ghost use Rattle.q_kernel.specs.Prelude.{slots};
ghost use Rattle.q_reduce.specs.Regions.{AreRegionsOf};

use crate::regions::Regions;
use q_kernel::{ClauseId, Kernel};
use q_logic::{Lit, NoMemory};
use std::alloc::Global;
use std::marker::Model;

// So many blocks have regions at a time.
const BLOCKS: usize = 4;

/// Regions of the blocks that walks asked about last.
#[derive(Drop)]
pub struct RecentRegions {
    alloc: Global,
    regions: Vec<Regions>,
    // how many clauses were looked at by walks that found nothing, since regions were last made
    looked: usize,
}

impl Model for RecentRegions {
    ghost use Rattle.std.specs.Prelude.{List};
    ghost use Rattle.q_reduce.specs.Regions.{RegionMap};

    ghost Value = { List RegionMap };

    ghost view = { λ m. m.regions.items };
}

impl RecentRegions {
    pub fn new(alloc: Global) -> RecentRegions
        ensures { result ≡ [] }
    {
        RecentRegions {
            alloc,
            regions: Vec::new(alloc),
            looked: 0,
        }
    }

    pub fn forget(&mut self)
        ensures { self.new ≡ [] }
    {
        self.regions.clear();
    }

    /// Whether regions tell that a literal is reducible in its clause.
    pub fn separate(&self, kernel: &Kernel, c: ClauseId, lit: Lit) -> bool
        requires live { (C : Clause) × (slot (slots kernel.now) c ≡ Some C) × IsIn lit C
            × (IsIn (negation lit) C → ⊥) }
        requires universal { is_universal kernel.now.prefix lit.var ≡ true }
        requires regions { AreRegionsOf kernel.now self.now }
        ensures { IsTrue result → (C : Clause) → slot (slots kernel.now) c ≡ Some C
            → Reducible kernel.now.prefix (others c (slots kernel.now)) C lit }
    {
        for regions in &self.regions {
            if regions.separates(kernel, c, lit) {
                return true;
            }
        }
        false
    }

    /// Learns of a walk that found nothing and looked at so many clauses. Once such walks have cost more than to go
    /// through the clauses and the variables, regions are made for the block of the variable: so that never costs more
    /// than the walks did.
    pub fn learn(&mut self, kernel: &Kernel, var: u32, looks: usize) -> Result<(), NoMemory>
        requires bound { is_bound kernel.now.prefix var ≡ true }
        requires regions { AreRegionsOf kernel.now self.old }
        ensures { AreRegionsOf kernel.now self.new }
    {
        kernel.sound();
        self.looked = self.looked.saturating_add(looks);
        if self.looked > kernel.size() + kernel.greatest_var() as usize {
            self.looked = 0;
            self.make(kernel, var)?;
        }
        Ok(())
    }

    // Makes regions for the block of a variable. Where there is no room for them, the oldest go.
    fn make(&mut self, kernel: &Kernel, var: u32) -> Result<(), NoMemory>
        requires bound { is_bound kernel.now.prefix var ≡ true }
        requires regions { AreRegionsOf kernel.now self.old }
        ensures { AreRegionsOf kernel.now self.new }
    {
        if self.regions.len() >= BLOCKS {
            let _ = self.regions.remove(0);
        }
        let mut regions = Regions::new(self.alloc);
        regions.build(kernel, var)?;
        self.regions.push(regions)?;
        Ok(())
    }
}

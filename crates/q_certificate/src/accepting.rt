//! Whether circuits fit a prefix: the four refusals, in their order.
ghost use Rattle.std.specs.Prelude.{◌≡◌, IfErr, OnOk};
ghost use Rattle.q_logic.specs.Prelude.{Distinct};
ghost use Rattle.q_certificate.specs.Refusals.{Fits, IsMisfit};

use crate::by_variable::{circuits_of, places_of};
use crate::error::Misfit;
use crate::inputs::test_inputs;
use crate::names::test_names;
use crate::reads::test_reads;
use q_aig::Certificate;
use q_logic::Bound;
use std::alloc::Global;

/// Tests whether these can be circuits of the existentials of a prefix, over its universals.
pub fn test(alloc: Global, prefix: &[Bound], given: &mut Certificate) -> Result<(), Misfit>
    requires distinct { Distinct prefix.now }
    ensures unchanged { given.new ≡ given.old }
    ensures fits { OnOk result (Fits prefix.now given.old) }
    ensures refused { IfErr result (IsMisfit prefix.now given.old) }
{
    let circuits = circuits_of(alloc, given)?;
    test_names(alloc, prefix, given, &circuits)?;
    let places = places_of(alloc, given.aig().inputs())?;
    test_inputs(alloc, prefix, given, &places)?;
    test_reads(alloc, prefix, given, &circuits, &places)
}

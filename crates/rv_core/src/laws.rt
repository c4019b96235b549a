//! Laws of plain instructions.

ghost use Rattle.rv_core.specs.Stackless.{NoAddressReachesAStack, LegsKeepTheStack};

/// In an image of version 1 no address reaches a stack: whatever bytes a stack has, the next result at each core is the
/// same, and they stay. The call does nothing; its contract is the law.
#[tactic(auto, using(crate::proofs::Unreached::no_address_reaches))]
pub fn no_address_reaches_a_stack()
    ensures { NoAddressReachesAStack }
{}

/// In an image of version 1 a leg leaves the stack as it was. The call does nothing; its contract is the law.
pub fn a_leg_keeps_the_stack_of_version_1()
    ensures { LegsKeepTheStack }
{}

//! The law of the operators.
ghost use Rattle.gstate.specs.Operators.{OperatorsLaw};

/// Each operator keeps the states that fit their memory.
pub fn gstate_lawful()
    ensures { OperatorsLaw }
{}

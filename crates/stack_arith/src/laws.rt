//! The law of the operators.
ghost use Rattle.stack_arith.specs.Operators.{OperatorsLaw};

/// Each operator keeps the states that fit their memory.
pub fn stack_arith_lawful()
    ensures { OperatorsLaw }
{}

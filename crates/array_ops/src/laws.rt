//! The law of the operators.
ghost use Rattle.array_ops.specs.Operators.{OperatorsLaw};

/// Each operator keeps the states that fit their memory.
pub fn array_ops_lawful()
    ensures { OperatorsLaw }
{}

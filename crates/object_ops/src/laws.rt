//! The law of the operators.
ghost use Rattle.object_ops.specs.Operators.{OperatorsLaw};

/// Each operator keeps the states that fit their memory.
pub fn object_ops_lawful()
    ensures { OperatorsLaw }
{}

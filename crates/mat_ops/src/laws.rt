//! The law of the operators.
ghost use Rattle.mat_ops.specs.Operators.{OperatorsLaw};

/// Each operator keeps the states that fit their memory.
pub fn mat_ops_lawful()
    ensures { OperatorsLaw }
{}

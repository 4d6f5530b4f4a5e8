//! The law of the operators.
ghost use Rattle.error_ops.specs.Operators.{OperatorsLaw};

/// Each operator keeps the states that fit their memory.
pub fn error_ops_lawful()
    ensures { OperatorsLaw }
{}

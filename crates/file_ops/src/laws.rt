//! The law of the operators.
ghost use Rattle.file_ops.specs.Operators.{OperatorsLaw};

/// Each operator keeps the states that fit their memory.
pub fn file_ops_lawful()
    ensures { OperatorsLaw }
{}

//! The law of the operators.
ghost use Rattle.dict_ops.specs.Operators.{OperatorsLaw};

/// Each operator keeps the states that fit their memory.
pub fn dict_ops_lawful()
    ensures { OperatorsLaw }
{}

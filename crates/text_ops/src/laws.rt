//! The law of the operators.
ghost use Rattle.text_ops.specs.Operators.{OperatorsLaw};

/// Each operator keeps the states that fit their memory.
pub fn text_ops_lawful()
    ensures { OperatorsLaw }
{}

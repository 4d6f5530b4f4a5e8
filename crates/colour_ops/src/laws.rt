//! The law of the operators.
ghost use Rattle.colour_ops.specs.Operators.{OperatorsLaw};

/// Each operator keeps the states that fit their memory.
pub fn colour_ops_lawful()
    ensures { OperatorsLaw }
{}

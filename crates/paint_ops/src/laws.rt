//! The law of the operators.
ghost use Rattle.paint_ops.specs.Operators.{OperatorsLaw};

/// Each operator keeps the states that fit their memory.
pub fn paint_ops_lawful()
    ensures { OperatorsLaw }
{}

//! The law of the operators.
ghost use Rattle.clip_ops.specs.Operators.{OperatorsLaw};

/// Each operator keeps the states that fit their memory.
pub fn clip_ops_lawful()
    ensures { OperatorsLaw }
{}

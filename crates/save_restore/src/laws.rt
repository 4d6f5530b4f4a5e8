//! The law of the operators.
ghost use Rattle.save_restore.specs.Operators.{OperatorsLaw};

/// Each operator keeps the states that fit their memory.
pub fn save_restore_lawful()
    ensures { OperatorsLaw }
{}

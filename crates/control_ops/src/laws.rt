//! The laws of the operators and the steps.
ghost use Rattle.control_ops.specs.Operators.{OperatorsLaw, StepsLaw, SteadyLaw};

/// Each operator keeps the states that fit their memory.
pub fn control_ops_lawful()
    ensures { OperatorsLaw }
{}

/// Each step keeps the states that fit their memory.
pub fn control_steps_lawful()
    ensures { StepsLaw }
{}

/// A step that costs no turn ends its frame and begins nothing.
pub fn control_steps_steady()
    ensures { SteadyLaw }
{}

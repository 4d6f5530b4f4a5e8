//! The laws of the operators and the steps.
ghost use Rattle.path_build.specs.Operators.{OperatorsLaw, StepsLaw, SteadyLaw};

/// Each operator keeps the states that fit their memory.
pub fn path_build_lawful()
    ensures { OperatorsLaw }
{}

/// Each step keeps the states that fit their memory.
pub fn path_steps_lawful()
    ensures { StepsLaw }
{}

/// A step that costs no turn ends its frame and begins nothing.
pub fn path_steps_steady()
    ensures { SteadyLaw }
{}

//! Sound states, and what keeps them sound.
#![tactic(auto)]

ghost use Rattle.ps_meaning.specs.Answer.{AnswerLaw, LayingLaw, SecondLookLaw};
ghost use Rattle.ps_meaning.specs.Clauses.{ClausesLaw};
ghost use Rattle.ps_meaning.specs.Kin.{KinLaw, UnnamedLaw};
ghost use Rattle.ps_meaning.specs.Sound.{SoundnessLaw};
ghost use Rattle.ps_meaning.specs.Start.{StartLaw};

/// A lawful run on a sound memory does only what is allowed, and leaves a sound memory.
pub fn soundness_law<A>()
    ensures { SoundnessLaw A }
{}

/// What stands both before some sections and after them has one shape.
pub fn kin_law()
    ensures { KinLaw }
{}

/// What has no name of a section or of a later one has none of the sections to come, and after them none of a later section.
pub fn unnamed_law()
    ensures { UnnamedLaw }
{}

/// A job starts in a sound state.
pub fn start_law()
    ensures { StartLaw }
{}

/// A sound state is one that meets the six clauses.
pub fn clauses_law()
    ensures { ClausesLaw }
{}

/// An application answers as its run does, up to a restore of a save that was made before the run.
pub fn answer_law()
    ensures { AnswerLaw }
{}

/// A second look at a place tells nothing new.
pub fn second_look_law()
    ensures { SecondLookLaw }
{}

/// To lift the paper and lay another is to look at it and to store the other.
pub fn laying_law()
    ensures { LayingLaw }
{}

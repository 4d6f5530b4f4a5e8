//! The count of faults over two sinks.
ghost use Rattle.out_writers.specs.Faults.{FaultsLaw};

/// Where the count of faults over two sinks has risen, that of one of them has.
pub fn faults_law()
    ensures { FaultsLaw }
{}

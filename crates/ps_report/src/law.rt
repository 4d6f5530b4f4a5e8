//! The law of the report.
ghost use Rattle.ps_report.specs.Reports.{ReportsLaw};

/// To take the report is lawful, and leaves the world of the memory as it was.
pub fn reports_law()
    ensures { ReportsLaw }
{}

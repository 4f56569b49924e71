//! Laws on the text of a report. Each is a function with no parameters, whose contract is the law.

ghost use Rattle.er_report.specs.Rows.{WorkedReports};

/// Small lists of predecessors and of kept accesses, with their reports.
pub fn worked_reports()
    ensures { WorkedReports }
{}

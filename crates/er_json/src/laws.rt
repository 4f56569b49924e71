//! Laws on the lines. Each is a function with no parameters, whose contract is the law.

ghost use Rattle.er_json.specs.Rows.{WorkedLines};

/// Small lists of predecessors and of kept accesses, and a refusal, with their lines.
pub fn worked_lines()
    ensures { WorkedLines }
{}

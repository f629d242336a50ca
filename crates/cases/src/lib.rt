#![tactic(auto)]

ghost use Rattle.cases.specs.Table.{WorkedCases};

/// Worked cases of the definitions, each by computing it.
pub fn worked_cases()
    ensures { WorkedCases }
{}

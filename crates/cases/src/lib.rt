// More worked cases, apart from model so that its check stays short.
#![tactic(auto)]

ghost use Rattle.cases.specs.More.{MoreCases};
ghost use Rattle.cases.specs.WholeFile.{WholeFile};

pub fn more_cases()
    ensures { MoreCases }
{}

// A whole wrapped file.
pub fn whole_file()
    ensures { WholeFile }
{}

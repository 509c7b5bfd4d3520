// Worked cases of the later requests, apart from model and cases so that each check stays short.
#![tactic(auto)]

ghost use Rattle.request_cases.specs.Clumps.{ClumpCases};
ghost use Rattle.request_cases.specs.QuickFinds.{QuickCases};

// Document 02, T-07.
pub fn clump_cases()
    ensures { ClumpCases }
{}

// Document 02, T-08.
pub fn quick_cases()
    ensures { QuickCases }
{}

// Played cases: a few calls and traces, with what must come of each by the rules.
#![tactic(auto)]

ghost use Rattle.cases.specs.Cases.{AllCome, table};

// Of every row of the table, what must come does.
pub fn cases_come()
    ensures { AllCome table }
{}

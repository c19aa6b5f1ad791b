// Known cases as one table (C4). This function carries the theorem that every row holds.
#![tactic(auto)]

ghost use Rattle.proved_cases.specs.Table.{TableHolds};

pub fn cases_hold()
    ensures { TableHolds }
{}

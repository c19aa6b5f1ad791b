// What every definition is made of. The definitions are in specs/.
#![tactic(auto)]

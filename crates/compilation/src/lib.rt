// What a source compiles to, and its listing. The definitions are in specs/.
#![tactic(auto)]

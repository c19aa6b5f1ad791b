// The syntax tree, and what names stand for. The definitions are in specs/.
#![tactic(auto)]

// Numbers as text. The definitions are in specs/, and the code that writes them is the crate `text`.
#![tactic(auto)]

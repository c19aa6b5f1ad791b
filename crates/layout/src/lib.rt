// Which words a tree becomes, and where they stand in the memory. The definitions are in specs/; here are the layout's numbers for the code.
#![tactic(auto)]

pub mod addresses;

// Which tree a source is, or which failure it is refused with. The definitions are in specs/.
#![tactic(auto)]

// No code: the laws of whole numbers that every crate above cites stand in specs/.
#![tactic(auto)]

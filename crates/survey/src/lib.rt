// No code: a reach surveyed from its other end, and that a call on it is answered alike from both, stand in specs/.
#![tactic(auto)]

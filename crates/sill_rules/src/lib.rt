// No code: the rules of a reach over a stepped bed, and what follows from them, stand in specs/.
#![tactic(auto)]

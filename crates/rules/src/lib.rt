// No code: the rules of the step, in the order of the scope document, and what follows from them stand in specs/.
#![tactic(auto)]

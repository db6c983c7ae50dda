// No code: what a rule said before a request amended it, and how the rule in force differs, stand in specs/.
#![tactic(auto)]

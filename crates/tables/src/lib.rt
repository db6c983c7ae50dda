// No code: what lent tables and working tables hold, as lists, stands in specs/.
#![tactic(auto)]

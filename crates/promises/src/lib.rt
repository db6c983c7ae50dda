// No code: what is promised of the public calls stands in proofs/Promises.antt.
#![tactic(auto)]

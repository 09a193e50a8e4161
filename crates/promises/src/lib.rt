// No code: the promises are in proofs/Promises.antt.
#![tactic(auto)]

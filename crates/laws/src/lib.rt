// No code: the laws of tables are in proofs/.
#![tactic(auto)]

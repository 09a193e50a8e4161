// No code: the printed page and the published table are in specs/, and what follows from them in proofs/.
#![tactic(auto)]

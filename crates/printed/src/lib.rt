// No code: how a printed model is written, and what it comes to in a table, is in specs/.
#![tactic(auto)]

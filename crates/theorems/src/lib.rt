// Claims about the definitions of the crates below, and their proofs. No code.
#![tactic(auto)]

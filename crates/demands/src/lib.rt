// The demands as theorems over the rules. There is no code here: what the demands speak of is in specs/, the theorems are in proofs/.
#![tactic(auto)]

// Theorems over the rules that several crates cite, in proofs/, and the limits that code may count on, in specs/. No code.
// What holds of one plan only belongs into plan_laws; what a publisher relies on belongs into demands.
#![tactic(auto)]

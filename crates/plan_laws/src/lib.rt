// Theorems about the four plans: what each keeps, what it loads, and how it compares with any list. No code.
// What holds of every rule belongs into laws; what a publisher relies on belongs into demands.
#![tactic(auto)]

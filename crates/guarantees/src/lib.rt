// The demands once more, over what a caller learns of `govahrin_plan` and `govahrin_check` themselves. There is no code here.
// What the demands speak of belongs into demands; here they are only said of the functions that crates/govahrin_c hands to a host.
#![tactic(auto)]

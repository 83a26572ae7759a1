// No code: what the product is accepted by.

#![tactic(auto)]

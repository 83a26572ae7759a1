// No code: which packets demand 3 calls alike, and that alike packets are read alike.

#![tactic(auto)]

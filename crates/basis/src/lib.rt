// No code: definitions and laws that every crate cites.

#![tactic(auto)]

// No code: languages of bytes with meanings, and that a reading of one is exact. The lines of signatures are written in them.

#![tactic(auto)]

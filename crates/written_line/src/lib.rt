// No code: the line that is written of a signature with its layout, of a record and of an observation; its shape, its length, and that
// reading gives it back (document 02, Wish 7).
#![tactic(auto)]

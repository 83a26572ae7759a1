// No code: what the packet reader gives of any packet, as a record of a signature list may have it.

#![tactic(auto)]

// No code: the header fields of IPv4, IPv6 and TCP under the names of the RFCs.

#![tactic(auto)]

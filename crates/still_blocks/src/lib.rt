// A block of a mixer that stands still is the same however it is cut in chunks; see proofs/laws/. There is no code here.

#![tactic(auto)]

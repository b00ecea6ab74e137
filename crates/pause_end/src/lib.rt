// When a pause is over; see specs/ and proofs/laws/. There is no code here.

#![tactic(auto)]

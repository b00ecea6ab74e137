// What an accepted scene gives the layers above; see specs/ and proofs/laws/. There is no code here.

#![tactic(auto)]

// The mix of a chunk does not depend on what lies inside silent tracks; see specs/ and proofs/laws/. There is no code here.

#![tactic(auto)]

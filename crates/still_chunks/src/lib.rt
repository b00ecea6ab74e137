// Where the mixer's levels stand still, how a block is cut in chunks cannot be heard; see proofs/laws/. There is no code here.

#![tactic(auto)]

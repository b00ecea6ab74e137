// What a mixer keeps to while an accepted scene is rendered; see proofs/laws/. There is no code here.

#![tactic(auto)]

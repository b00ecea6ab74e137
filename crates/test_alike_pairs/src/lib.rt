// The definition of `alike` computed on stored pairs; see specs/. There is no code here.

#![tactic(auto)]

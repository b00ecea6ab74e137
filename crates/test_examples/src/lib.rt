// Worked examples, proved from the definitions as rows of one list; see specs/. There is
// no code here.

#![tactic(auto)]

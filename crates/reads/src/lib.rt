// Reading programs: the definitions in specs/ that every reading function's contract cites, and their laws in proofs/. No code.
#![tactic(auto)]

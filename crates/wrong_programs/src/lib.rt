// Nothing runs here: specs/ has the wrong programs that the contracts rule out, proofs/ that they do.

#![tactic(auto)]

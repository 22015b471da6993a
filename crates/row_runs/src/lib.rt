// The colour runs of a row, in specs/, and the row search of detector_rows said over them, in proofs/. No code.
#![tactic(auto)]

// What document 01 keeps of YAML 1.2.2, as a grammar, and the proof that the reader reads it so. No code.
#![tactic(auto)]

// Worked examples on the rules (docs/RULES-IN-WORDS.md), in proofs/: those that 01 marks for proof, and those that take long to compute. There
// is no code here. Examples about single rules stand beside the rules, in `rules`.
#![tactic(auto)]

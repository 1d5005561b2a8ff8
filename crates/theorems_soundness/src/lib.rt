// Soundness as facts, in specs/, and that they hold exactly where the eight tests do: proofs/SoundFacts. A sound table is sound after
// every call: proofs/Kept and proofs/KeptByRules; budgets of 256 suffice: proofs/BudgetsSuffice. There is no code here.
#![tactic(auto)]

// Whom a defect is paired with (ticket 3 of 02): on a sound table the answer is what the listing says of the defect, and the partner of the
// partner is the defect (proofs/AsListed, over specs/Said). There is no code here.
#![tactic(auto)]

// What requests do on a sound table: how many commands a request gives, and that all of them are written (proofs/CommandsFit); the
// listing names each present defect once (proofs/EachEventOnce, over specs/Named), and would be the same without its test of a touched
// node's state (proofs/NoTestNeeded, over specs/ListingCalls and specs/ListingWithoutTest); requests that concern nothing in common can
// come in any order (proofs/AnyOrder, over specs/Orders); which side a refusal names (proofs/SidesNamed, over specs/Sides). There is no
// code here.
#![tactic(auto)]

// What the promises of the calls amount to, in proofs/: results are unique (Unique, UniqueForC) and nothing passes by doing little
// (DoingLittle); a sound table stays sound (SoundAfter) and the bytes left are the records said (BytesAfter, AfterForC); a run's count and
// rest (RunCounts, UnreadRest); two orders (EitherOrder); which defects are loaded, and that the listing names each once (LoadedEvents); the
// program's turns (InTurns). There is no code here.
#![tactic(auto)]

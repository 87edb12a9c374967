// The closure as passes, and how many of them change something: mathematics alone, in specs/ and proofs/, with no code. Document 02, No. 12. Rests on
// meaning.
#![tactic(auto)]

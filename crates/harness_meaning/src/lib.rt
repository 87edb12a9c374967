// The reason of a plain harness sheet: what it is, that it is one, and the search by levels that finds it. Document 02, No. 8. Definitions and mathematics in
// specs/ and proofs/, with no code. Rests on meaning.
#![tactic(auto)]

// Taking out spare records by halves, classes as rings of tags, and closing by adding: mathematics alone, in specs/ and proofs/, with no code.
// Document 01, "Reasons". Rests on meaning and on table.
#![tactic(auto)]

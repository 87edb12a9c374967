// What a script of bytes says: its tokens, its commands or its refusal, the bytes of its job; and that every accepted script has what document 02, No. 4, promises.
// Mathematics alone, in specs/ and proofs/, with no code. Rests on meaning, script_terms.
#![tactic(auto)]

// Words that mean something by themselves, and a script's tokens with these told apart. Document 02, No. 4: "Names are simple symbols .. Core's names counting as
// declared"; SMT-LIB 2.6, section 3.1, for the reserved words. Rests on script_meaning, script_tokens.
#![tactic(auto)]

ghost use Rattle.std.specs.Prelude.{◌≡◌, ℕ, ◌≤◌, ◌<◌, length, MatchOption};
ghost use Rattle.script_meaning.specs.Tokens.{same_bytes};
ghost use Rattle.script_tokens.specs.Kinds.{number};
ghost use Rattle.script_words.specs.Words.{word_at, Stands, Spotted, Told, Read};

use script_tokens::{Kind, Lexeme, lex_at};

// Core's names, the reserved words, the numeral 0, and two words that are names wherever they are not asked for. They stay places in this list: an enum of 54 would need
// this list beside it all the same, to be found by a word's bytes.
const WORDS: [&[u8]; 56] = [
    b"true",
    b"false",
    b"not",
    b"=>",
    b"and",
    b"or",
    b"xor",
    b"=",
    b"distinct",
    b"ite",
    b"!",
    b"_",
    b"as",
    b"BINARY",
    b"DECIMAL",
    b"exists",
    b"HEXADECIMAL",
    b"forall",
    b"let",
    b"match",
    b"NUMERAL",
    b"par",
    b"STRING",
    b"assert",
    b"check-sat",
    b"check-sat-assuming",
    b"declare-const",
    b"declare-datatype",
    b"declare-datatypes",
    b"declare-fun",
    b"declare-sort",
    b"define-fun",
    b"define-fun-rec",
    b"define-funs-rec",
    b"define-sort",
    b"echo",
    b"exit",
    b"get-assertions",
    b"get-assignment",
    b"get-info",
    b"get-model",
    b"get-option",
    b"get-proof",
    b"get-unsat-assumptions",
    b"get-unsat-core",
    b"get-value",
    b"pop",
    b"push",
    b"reset",
    b"reset-assertions",
    b"set-info",
    b"set-logic",
    b"set-option",
    b"0",
    b"Bool",
    b"QF_UF",
];

// How many of them are told apart from names.
const TOLD: usize = 54;

// The words that a script is asked for, by their places.
pub const NOT: Kind = Kind::Known(2);

pub const EQUALS: Kind = Kind::Known(7);

pub const ASSERT: Kind = Kind::Known(23);

pub const CHECK_SAT: Kind = Kind::Known(24);

pub const DECLARE_FUN: Kind = Kind::Known(29);

pub const DECLARE_SORT: Kind = Kind::Known(30);

pub const EXIT: Kind = Kind::Known(36);

pub const SET_LOGIC: Kind = Kind::Known(51);

pub const NOUGHT: Kind = Kind::Known(53);

// The places of the two words that are names elsewhere.
pub const BOOL: usize = 54;

pub const QF_UF: usize = 55;

// Whether the bytes stand at a place of a list of words. It takes the list, so that its contract can name it.
fn stands_at(words: &[&[u8]], place: usize, word: &[u8]) -> bool
    requires { place < length words.now }
    ensures { Stands words.now place word.now result }
{
    words[place] == word
}

// Whether the bytes are the word at a place of the list.
pub fn is_word(word: &[u8], place: usize) -> bool
    requires { place < 56 }
    ensures { result ≡ same_bytes (word_at place) word.now }
{
    stands_at(&WORDS, place, word)
}

// Which of the words that are told apart the bytes are.
fn word_of(word: &[u8]) -> Option<u8>
    ensures { MatchOption result (Spotted word.now 54) (λ k. (k < 54) × Spotted word.now k) }
{
    for place in 0..TOLD {
        if is_word(word, place) {
            return Some(place as u8);
        }
    }
    None
}

// What a word is to the reader: a word with a digit in front is no symbol.
fn kind_of(word: &[u8]) -> Kind
    requires { 0 < length word.now }
    ensures { Told word.now (number result) }
{
    match word_of(word) {
        Some(place) => Kind::Known(place),
        None if word[0].is_ascii_digit() => Kind::Other,
        None => Kind::Name,
    }
}

// The next token.
pub fn read_at(script: &[u8], at: usize) -> Lexeme
    requires { at ≤ length script.now }
    ensures { Read script.now at (number result.kind) result.from result.to }
{
    let x = lex_at(script, at);
    match x.kind {
        Kind::Name => {
            let kind = kind_of(&script[x.from..x.to]);
            Lexeme { kind, ..x }
        }
        _ => x,
    }
}

// The tokens of a script. Document 02, No. 4; SMT-LIB 2.6, section 3.1. Rests on script_meaning.
#![tactic(auto)]

ghost use Rattle.std.specs.Prelude.{◌≡◌, ℕ, ◌≤◌, ◌<◌, ◌&&◌, leb, length, drop};
ghost use Rattle.script_meaning.specs.Tokens.{is_symbolic};
ghost use Rattle.script_tokens.specs.Lexing.{Classed, Onward, Skipped, Ran, Lexed};
ghost use Rattle.script_tokens.specs.Kinds.{number, state_number};

// Where a byte leaves the lexer that looks for a token.
#[derive(Clone, Copy, Debug, PartialEq, Eq)]
enum State {
    Outside,
    Comment,
    Token,
}

// What a token is. `Known` is a word of script_words' list, by its place; the lexer alone calls every word a `Name`.
#[derive(Clone, Copy, Debug, PartialEq, Eq)]
pub enum Kind {
    End,
    Opening,
    Closing,
    Other,
    Name,
    Known(u8),
}

// A token, its first byte and the place behind it.
#[derive(Clone, Copy, Debug, PartialEq, Eq)]
pub struct Lexeme {
    pub kind: Kind,
    pub from: usize,
    pub to: usize,
}

impl Kind {
    // Whether the token is a simple symbol: a name of the script's own or one of Core's, which are the first ten of the list.
    pub fn is_simple(self) -> bool
        ensures { result ≡ (leb 6 (number self) && leb (number self) 16) }
    {
        match self {
            Kind::Name => true,
            Kind::Known(place) => place < 10,
            _ => false,
        }
    }
}

// What each byte is to the lexer: 0 white space, 1 a line break, 2 a semicolon, 3 and 4 parentheses, 5 no byte of a token, 6 a symbol character, 7 a digit. A table of
// numbers, since every byte of a script is looked up: tests of ranges and lists take two to five times as long.
const CLASSES: [u8; 256] = [
    5, 5, 5, 5, 5, 5, 5, 5, 5, 0, 1, 5, 5, 1, 5, 5, 5, 5, 5, 5, 5, 5, 5, 5, 5, 5, 5, 5, 5, 5, 5, 5,
    0, 6, 5, 5, 6, 6, 6, 5, 3, 4, 6, 6, 5, 6, 6, 6, 7, 7, 7, 7, 7, 7, 7, 7, 7, 7, 5, 2, 6, 6, 6, 6,
    6, 6, 6, 6, 6, 6, 6, 6, 6, 6, 6, 6, 6, 6, 6, 6, 6, 6, 6, 6, 6, 6, 6, 6, 6, 6, 6, 5, 5, 5, 6, 6,
    5, 6, 6, 6, 6, 6, 6, 6, 6, 6, 6, 6, 6, 6, 6, 6, 6, 6, 6, 6, 6, 6, 6, 6, 6, 6, 6, 5, 5, 5, 6, 5,
    5, 5, 5, 5, 5, 5, 5, 5, 5, 5, 5, 5, 5, 5, 5, 5, 5, 5, 5, 5, 5, 5, 5, 5, 5, 5, 5, 5, 5, 5, 5, 5,
    5, 5, 5, 5, 5, 5, 5, 5, 5, 5, 5, 5, 5, 5, 5, 5, 5, 5, 5, 5, 5, 5, 5, 5, 5, 5, 5, 5, 5, 5, 5, 5,
    5, 5, 5, 5, 5, 5, 5, 5, 5, 5, 5, 5, 5, 5, 5, 5, 5, 5, 5, 5, 5, 5, 5, 5, 5, 5, 5, 5, 5, 5, 5, 5,
    5, 5, 5, 5, 5, 5, 5, 5, 5, 5, 5, 5, 5, 5, 5, 5, 5, 5, 5, 5, 5, 5, 5, 5, 5, 5, 5, 5, 5, 5, 5, 5,
];

fn class_of(b: u8) -> u8
    ensures { Classed b result }
{
    CLASSES[usize::from(b)]
}

// A letter, a digit, or one of the standard's other symbol characters.
fn is_symbolic(b: u8) -> bool
    ensures { result ≡ is_symbolic b }
{
    6 <= class_of(b)
}

// One byte on.
fn onward(state: State, b: u8) -> State
    ensures { Onward (state_number state) b (state_number result) }
{
    let class = class_of(b);
    match state {
        State::Comment if class == 1 => State::Outside,
        State::Comment => State::Comment,
        _ if class < 2 => State::Outside,
        _ if class == 2 => State::Comment,
        _ => State::Token,
    }
}

// Where the next token begins.
fn skip(s: &[u8], from: usize) -> usize
    requires { from ≤ length s.now }
    ensures { Skipped s.now from result }
{
    let mut state = State::Outside;
    for i in from..s.len() {
        state = onward(state, s[i]);
        if state == State::Token {
            return i;
        }
    }
    s.len()
}

// Where the run of symbol characters that begins at a place ends.
fn run_end(s: &[u8], from: usize) -> usize
    requires { from ≤ length s.now }
    ensures { Ran s.now from result }
{
    for i in from..s.len() {
        if !is_symbolic(s[i]) {
            return i;
        }
    }
    s.len()
}

// The token that is next from a place on.
pub fn lex_at(s: &[u8], at: usize) -> Lexeme
    requires { at ≤ length s.now }
    ensures { Lexed s.now at (number result.kind) result.from result.to }
{
    let from = skip(s, at);
    if from == s.len() {
        return Lexeme {
            kind: Kind::End,
            from,
            to: from,
        };
    }
    match s[from] {
        b'(' => Lexeme {
            kind: Kind::Opening,
            from,
            to: from + 1,
        },
        b')' => Lexeme {
            kind: Kind::Closing,
            from,
            to: from + 1,
        },
        first if is_symbolic(first) => {
            let to = run_end(s, from);
            Lexeme {
                kind: Kind::Name,
                from,
                to,
            }
        }
        _ => Lexeme {
            kind: Kind::Other,
            from,
            to: from + 1,
        },
    }
}

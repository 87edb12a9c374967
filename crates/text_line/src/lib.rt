// A line of text, put into a room of bytes: a letter, and numbers in decimal. Document 01, "The program". Rests on nothing.
#![tactic(auto)]

ghost use Rattle.std.specs.Prelude.{◌≡◌, [], ◌∷◌, ◌+◌, ◌<◌};
ghost use Rattle.text_line.specs.Digits.{digits};
ghost use Rattle.text_line.specs.Put.{Put};
ghost use Rattle.text_line.specs.Line.{parted, line, ask_line};

// The text so far ends before a place, and each function below puts more there and gives the place behind it. Past the room's end
// nothing is stored, and the place is the first past that end.
pub fn put(out: &mut [u8], at: usize, byte: u8) -> usize
    ensures { Put (byte ∷ []) out.old at out.new result }
{
    if at < out.len() {
        out[at] = byte;
        at + 1
    } else {
        out.len() + 1
    }
}

// The byte of a digit.
fn digit(n: usize) -> u8
    requires { n < 10 }
    ensures { result ≡ 48 + n }
{
    48 + n as u8
}

// A number in decimal: the digits before the last one are those of its tenth part.
pub fn put_number(out: &mut [u8], at: usize, n: usize) -> usize
    ensures { Put (digits n) out.old at out.new result }
{
    if n < 10 {
        put(out, at, digit(n))
    } else {
        let next = put_number(out, at, n / 10);
        put(out, next, digit(n % 10))
    }
}

// A number of a line, with the space before it.
pub fn put_parted(out: &mut [u8], at: usize, n: usize) -> usize
    ensures { Put (parted (n ∷ [])) out.old at out.new result }
{
    let next = put(out, at, b' ');
    put_number(out, next, n)
}

// A line's letter and numbers of it, from the first on.
fn put_begun(out: &mut [u8], at: usize, letter: u8, numbers: &[usize]) -> usize
    ensures { Put (letter ∷ parted numbers.now) out.old at out.new result }
{
    let mut next = put(out, at, letter);
    for n in numbers {
        next = put_parted(out, next, *n);
    }
    next
}

// A whole line.
fn put_line(out: &mut [u8], at: usize, letter: u8, numbers: &[usize]) -> usize
    ensures { Put (line letter numbers.now) out.old at out.new result }
{
    let next = put_begun(out, at, letter, numbers);
    put(out, next, b'\n')
}

// A line's letter and its first two numbers.
pub fn open_line(out: &mut [u8], at: usize, letter: u8, s: usize, t: usize) -> usize
    ensures { Put (letter ∷ parted (s ∷ t ∷ [])) out.old at out.new result }
{
    put_begun(out, at, letter, &[s, t])
}

// A line of two numbers.
pub fn put_pair(out: &mut [u8], at: usize, letter: u8, s: usize, t: usize) -> usize
    ensures { Put (line letter (s ∷ t ∷ [])) out.old at out.new result }
{
    put_line(out, at, letter, &[s, t])
}

// The line of an ask.
pub fn put_ask(out: &mut [u8], at: usize, s: usize, t: usize, l: usize, m: usize) -> usize
    ensures { Put (ask_line s t l m) out.old at out.new result }
{
    if l == m {
        put_line(out, at, b'S', &[s, t, l])
    } else {
        put_line(out, at, b'D', &[s, t, l, m])
    }
}

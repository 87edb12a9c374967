// The frames that are written. Rests on console, and on call_look and haltzurme_own for what an answer is.
use console::write_output;
use haltzurme_own::Refusal;

// A letter that is no answer's, where something lent did not end as it must.
pub fn tell(rt: &HostRuntime, good: bool) {
    if !good {
        let _ = write_output(rt, b"X");
    }
}

// A number in four bytes, high byte first.
pub fn put_number(rt: &HostRuntime, n: usize) {
    let bytes = [
        (n / 16777216 % 256) as u8,
        (n / 65536 % 256) as u8,
        (n / 256 % 256) as u8,
        (n % 256) as u8,
    ];
    let _ = write_output(rt, &bytes);
}

pub fn put_bytes(rt: &HostRuntime, letter: &[u8], bytes: &[u8]) {
    let _ = write_output(rt, letter);
    put_number(rt, bytes.len());
    let _ = write_output(rt, bytes);
}

// The record table that calls lends has the named 4,000 places.
pub fn put_loan(rt: &HostRuntime, room: usize, places: usize) {
    let _ = write_output(rt, b"L");
    put_number(rt, room);
    put_number(rt, 4000);
    put_number(rt, places);
}

// An answer's number and its place: both are 0 where it is no refusal.
pub fn numbers_of(answer: Result<(), Refusal>) -> (u8, usize) {
    match answer {
        Ok(()) => (0, 0),
        Err(refusal) => (u8::from(refusal.reason), refusal.place),
    }
}

// The number stands in two bytes.
pub fn put_answer(rt: &HostRuntime, letter: u8, answer: Result<(), Refusal>) {
    let (number, place) = numbers_of(answer);
    let _ = write_output(rt, &[letter, 0, number]);
    put_number(rt, place);
}

// What room and tables hold before a call, and whether they ended as document 01 says, "What is lent, and each refusal": where not, a frame
// X tells of it. Rests on records, meaning and haltzurme_own.
use crate::frames::tell;
use haltzurme_own::Refusal;
use meaning::Tag;
use records::Record;

// What stands first, and the step from each to the next.
#[derive(Clone, Copy)]
pub struct Rubbish {
    pub first: u16,
    pub step: u16,
}

// By turns: all numbers in disorder, one tag everywhere, numbers that rise by one, the largest number everywhere, and zeros, which are none.
pub const CLEAN: usize = 4;

pub fn rubbish_of(salt: usize) -> Rubbish {
    let any = (salt % 65536) as u16;
    let firsts = [any, (salt % 1000) as u16, any, 65535, 0];
    let steps = [40503u16, 0, 1, 0, 0];
    Rubbish {
        first: firsts[salt % 5],
        step: steps[salt % 5],
    }
}

// What stands in each place of the record table.
pub fn record_of(r: Rubbish) -> Record {
    Record {
        kind: r.first,
        a: Tag::of(r.step),
        b: Tag::of(r.first),
        c: Tag::of(r.first),
        sheet: r.step,
    }
}

pub fn soil_table(work: &mut [u16], r: Rubbish) {
    let mut value = r.first;
    for number in work.iter_mut() {
        *number = value;
        value = value.wrapping_add(r.step);
    }
}

// The named places that an answer leaves zero: none after 1 and 2, which change nothing.
fn zeros_after(answer: Result<(), Refusal>) -> usize {
    match answer {
        Err(refusal) if !refusal.is_lent() => 0,
        _ => crate::NAMED,
    }
}

// After an answer: the zeros at the front, and the rubbish behind them as it was.
pub fn look_table(rt: &HostRuntime, work: &[u16], answer: Result<(), Refusal>, r: Rubbish) {
    let zeros = zeros_after(answer);
    let mut value = r.first;
    for (i, number) in work.iter().enumerate() {
        let due = if i < zeros { 0 } else { value };
        if *number != due {
            tell(rt, false);
            return;
        }
        value = value.wrapping_add(r.step);
    }
}

fn low(n: u16) -> u8 {
    (n % 256) as u8
}

pub fn soil_room(room: &mut [u8], r: Rubbish) {
    let mut value = r.first;
    for byte in room.iter_mut() {
        *byte = low(value);
        value = value.wrapping_add(r.step);
    }
}

// The rubbish behind the first so many bytes is as it was.
pub fn look_room(rt: &HostRuntime, room: &[u8], from: usize, r: Rubbish) {
    let mut value = r.first;
    for (i, byte) in room.iter().enumerate() {
        if i >= from && *byte != low(value) {
            tell(rt, false);
            return;
        }
        value = value.wrapping_add(r.step);
    }
}

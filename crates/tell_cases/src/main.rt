// Texts for fixed jobs and reports: the inspector's job of document 01 with its report, small ones beside it, refusals, and rooms that
// a text fills or overfills by one byte. Rests on text; no contract says what is written, the stored output does.
#![tactic(auto)]

use text::tell_answer;

// Writes the bytes; where that fails they are left out.
fn say(rt: &HostRuntime, bytes: &[u8]) {
    let _ = rt.write_all(bytes);
}

// The text at the front of a room, or that it did not fit.
fn show(rt: &HostRuntime, room: &[u8], told: Option<usize>) {
    match told.and_then(|n| room.get(..n)) {
        Some(text) => say(rt, text),
        None => say(rt, b"full\n"),
    }
}

fn report(rt: &HostRuntime, name: &[u8], job: &[u8], report: &[u8]) {
    say(rt, name);
    let mut room = [7u8; 200];
    let told = tell_answer(job, report, 0, 0, report.len(), &mut room);
    show(rt, &room, told);
}

fn refusal(rt: &HostRuntime, number: u8, place: usize) {
    let mut room = [7u8; 40];
    let told = tell_answer(b"", b"", number, place, 0, &mut room);
    show(rt, &room, told);
}

// N = 8: records f(5,6)=1; f(5,7)=2; 1=3; then explain 2 3; records 6=7; 0=2; then ask 0 3; explain 0 3; ask 0 4; explain 2 1;
// explain 4 4.
fn inspector(rt: &HostRuntime) {
    report(
        rt,
        b"inspector\n",
        b"\x10\x00\x02\x00\x08\x02\x00\x06\x00\x05\x00\x06\x00\x01\x02\x00\x06\x00\x05\x00\x07\x00\x02\x01\x00\x04\x00\x01\x00\x03\x04\x00\x04\x00\x02\x00\x03\x01\x00\x04\x00\x06\x00\x07\x01\x00\x04\x00\x00\x00\x02\x03\x00\x04\x00\x00\x00\x03\x04\x00\x04\x00\x00\x00\x03\x03\x00\x04\x00\x00\x00\x04\x04\x00\x04\x00\x02\x00\x01\x04\x00\x04\x00\x04\x00\x04\x7F\x00\x00",
        b"\x85\x00\x00\x83\x00\x04\x00\x00\x00\x00\x84\x00\x0A\x00\x01\x00\x02\x00\x03\x00\x04\x00\x05\x83\x00\x04\x00\x00\x00\x04\x84\x00\x06\x00\x01\x00\x02\x00\x04\x84\x00\x00\x8F\x00\x04\x00\x04\x00\x00",
    );
}

// Numbers of one to five digits, in a job of 1,000 tags that asks and explains its last two.
fn digits(rt: &HostRuntime) {
    report(
        rt,
        b"digits\n",
        b"\x10\x00\x02\x03\xE8\x03\x00\x04\x03\xE6\x03\xE7\x04\x00\x04\x03\xE6\x03\xE7\x7F\x00\x00",
        b"\x83\x00\x04\x00\x09\x00\x0A\x84\x00\x12\x00\x63\x00\x64\x03\xE7\x03\xE8\x0F\xA0\x27\x0F\x27\x10\xFF\xFF\x00\x00\x8F\x00\x04\x03\xE8\x0F\xA0",
    );
}

fn small(rt: &HostRuntime) {
    report(
        rt,
        b"no_questions\n",
        b"\x10\x00\x02\x00\x02\x7F\x00\x00",
        b"\x8F\x00\x04\x00\x02\x00\x00",
    );
    report(
        rt,
        b"one_record\n",
        b"\x10\x00\x02\x00\x02\x01\x00\x04\x00\x01\x00\x00\x03\x00\x04\x00\x00\x00\x01\x7F\x00\x00",
        b"\x83\x00\x04\x00\x00\x00\x00\x8F\x00\x04\x00\x01\x00\x00",
    );
}

// Pairs that must differ: none is broken, then the second with no record, then the first with one; and an answer that is cut behind its number.
fn broken(rt: &HostRuntime) {
    let job =
        b"\x10\x00\x02\x00\x02\x05\x00\x04\x00\x00\x00\x01\x06\x00\x00\x05\x00\x04\x00\x00\x00\x00\x06\x00\x00\x01\x00\x04\x00\x00\x00\x01\x06\x00\x00\x7F\x00\x00";
    report(
        rt,
        b"broken\n",
        job,
        b"\x87\x00\x00\x86\x00\x02\x00\x02\x86\x00\x04\x00\x01\x00\x01\x8F\x00\x04\x00\x01\x00\x00",
    );
    report(
        rt,
        b"cut_in_a_pair\n",
        job,
        b"\x87\x00\x00\x86\x00\x04\x00\x02",
    );
}

// Document 02, No. 9: the sheets of each reason behind it, and none behind a 87; a reason whose sheets are cut.
fn sheets(rt: &HostRuntime) {
    let job =
        b"\x11\x00\x04\x00\x04\x00\x04\x05\x00\x04\x00\x00\x00\x01\x06\x00\x00\x01\x00\x06\x00\x02\x00\x00\x27\x0F\x01\x00\x06\x00\x02\x00\x01\x00\x01\x06\x00\x00\x7F\x00\x00";
    report(
        rt,
        b"sheets\n",
        job,
        b"\x87\x00\x00\x86\x00\x06\x00\x01\x00\x01\x00\x02\x8A\x00\x04\x00\x01\x27\x0F\x8F\x00\x04\x00\x02\x00\x00",
    );
    report(
        rt,
        b"cut_in_the_sheets\n",
        job,
        b"\x87\x00\x00\x86\x00\x06\x00\x01\x00\x01\x00\x02\x8A\x00\x04\x00",
    );
}

// What is not there counts as 0, and of a body only the whole numbers that are there.
fn cut(rt: &HostRuntime) {
    let job =
        b"\x10\x00\x02\x00\x02\x04\x00\x04\x00\x00\x00\x01\x03\x00\x04\x00\x00\x00\x01\x7F\x00\x00";
    report(rt, b"empty_report\n", job, b"");
    report(rt, b"cut_in_a_reason\n", job, b"\x84\x00\x06\x00\x01\x00");
    report(
        rt,
        b"odd_reason\n",
        job,
        b"\x84\x00\x03\x00\x01\x00\x83\x00\x04\x00\x00\x00\x01\x8F\x00\x04\x00\x02\x00\x00",
    );
}

fn refusals(rt: &HostRuntime) {
    report(rt, b"refused_jobs\n", b"", b"\x8F\x00\x04\x00\x02\x00\x00");
    report(rt, b"", b"\x10\x00\x02\x00\x02\x09\x00\x00", b"");
    say(rt, b"refusals\n");
    refusal(rt, 1, 0);
    refusal(rt, 9, 0);
    refusal(rt, 3, 43007);
    refusal(rt, 8, 99999);
    refusal(rt, 10, 18446744073709551615);
}

// A refusal in the first n bytes of a room, and then all the room's bytes.
fn within(rt: &HostRuntime, room: &mut [u8], n: usize, number: u8, place: usize) {
    if let Some(front) = room.get_mut(..n) {
        let told = tell_answer(b"", b"", number, place, 0, front);
        show(rt, room, told);
        say(rt, room);
    }
}

// The six bytes of a text in seven, six and five bytes of room.
fn rooms(rt: &HostRuntime) {
    say(rt, b"rooms\n");
    let mut room = *b"-------\n";
    within(rt, &mut room, 7, 9, 0);
    within(rt, &mut room, 6, 8, 1);
    within(rt, &mut room, 5, 7, 2);
}

fn main(rt: HostRuntime) {
    inspector(&rt);
    digits(&rt);
    small(&rt);
    broken(&rt);
    sheets(&rt);
    cut(&rt);
    refusals(&rt);
    rooms(&rt);
}

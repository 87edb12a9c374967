// tagharness: plain harness sheets. Without an argument it reads a job from standard input and writes its answers, one line an item, as tagcheck does; `tagharness report`
// writes the report's raw bytes, as tagreport does; `tagharness recheck JOB REPORT` rechecks a report, both files named, and writes `number place`, as tagrecheck does.
// Document 02, No. 8. It only reads, calls and writes: the calls are harness's, through harness_own, and what is said of a sheet is harness_saying's, and true. Rests on these, on serving and on console.
#![tactic(auto)]

use console::{is_given, read_argument};
use harness_own::{recheck_sheet, run_sheet};
use harness_saying::answer_sheet;
use serving::{JOB, Program, REPORT, Refused};

// Of a report so many bytes are kept, one more than the longest sound one has: 1,000 broken pairs with reasons of 999 numbers on as many sheets, and the totals. A reason of
// the fewest records is a way that comes to no tag twice.
const KEPT: usize = 4004008;

// What is asked for.
#[derive(Clone, Copy)]
enum Ask {
    Lines,
    Report,
    Recheck,
}

// What the arguments behind the program's own name ask for: none, `report` alone, or `recheck` and two file names.
fn asked(rt: &HostRuntime) -> Option<Ask> {
    let given = (1..5).take_while(|i| is_given(rt, *i)).count();
    if given == 0 {
        return Some(Ask::Lines);
    }
    let mut room = [0u8; 4096];
    let length = read_argument(rt, 1, &mut room).ok()?;
    match (&room[..length], given) {
        (b"report", 1) => Some(Ask::Report),
        (b"recheck", 3) => Some(Ask::Recheck),
        _ => None,
    }
}

// In a frame of its own, whose rooms a recheck does not need.
#[inline(never)]
fn report(program: Program<'_>) {
    let mut kept = [0u8; JOB];
    let Some(job) = program.input(&mut kept) else {
        return;
    };
    let mut room = [0u8; REPORT];
    program.write_made(&mut room, |room, work| {
        run_sheet(job, room, work).map_err(|refusal| Refused::from(refusal))
    });
}

fn recheck(program: Program<'_>) {
    program.write_verdict::<KEPT, _>((2, 3), |job, report, work| {
        recheck_sheet(job, report, work).map_err(|refusal| Refused::from(refusal))
    });
}

fn main(rt: HostRuntime) {
    let program = Program {
        runtime: &rt,
        name: "tagharness",
    };
    match asked(&rt) {
        Some(Ask::Lines) => program.write_lines(answer_sheet),
        Some(Ask::Report) => report(program),
        Some(Ask::Recheck) => recheck(program),
        None => program.complain(
            "no argument, or `report`, or `recheck` and two file names, a job and a report",
        ),
    }
}

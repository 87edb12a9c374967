// tagscript: reads an SMT-LIB script from standard input and writes the job that it becomes; on a refusal the line `R number place` goes to standard error and nothing to
// standard output. Document 02, No. 4. It only reads, calls and writes: the translation is script_call's. Rests on that and on serving.
#![tactic(auto)]

use script_call::{PLACES, translate_beside};
use serving::{Program, Refused};

// One byte more than the longest script allowed, and the bytes that are lent for the job.
const SCRIPT: usize = 60001;

const ROOM: usize = 46510;

// The call stands for one with a record table of as many places as are named.
fn main(rt: HostRuntime) {
    let program = Program {
        runtime: &rt,
        name: "tagscript",
    };
    let mut kept = [0u8; SCRIPT];
    let Some(script) = program.input(&mut kept) else {
        return;
    };
    let mut room = [0u8; ROOM];
    program.write_made(&mut room, |room, work| {
        translate_beside(script, room, work, PLACES).map_err(|refusal| Refused {
            number: u8::from(refusal.reason),
            place: refusal.place,
        })
    });
}

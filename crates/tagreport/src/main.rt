// tagreport: reads a job from standard input and writes its report's raw bytes; on a refusal the line `R number place` goes to standard error and
// nothing to standard output. It only reads, calls and writes: the run is haltzurme's, through haltzurme_own. Rests on that and on serving.
#![tactic(auto)]

use haltzurme_own::run_job;
use serving::{JOB, Program, REPORT, Refused};

fn main(rt: HostRuntime) {
    let program = Program {
        runtime: &rt,
        name: "tagreport",
    };
    let mut kept = [0u8; JOB];
    let Some(job) = program.input(&mut kept) else {
        return;
    };
    let mut room = [0u8; REPORT];
    program.write_made(&mut room, |room, work| {
        run_job(job, room, work).map_err(|refusal| Refused::from(refusal))
    });
}

// tagrecheck: rechecks a report against its job, both files named by arguments, and writes the line `number place`. Document 01, "What is lent, and
// each refusal". It only reads, calls and writes: the recheck is haltzurme's, through haltzurme_own. Rests on that, on serving and on console.
#![tactic(auto)]

use console::is_given;
use haltzurme_own::recheck_report;
use serving::{Program, Refused};

// Of a report so many bytes are kept, one more than the longest sound one has: 1,000 broken pairs with reasons of 1,998 numbers on as many sheets, and the totals. Of a longer
// one the first field at fault begins among these, and is at fault there too.
const KEPT: usize = 8000008;

// Behind the program's own name stand two arguments and no third.
fn main(rt: HostRuntime) {
    let program = Program {
        runtime: &rt,
        name: "tagrecheck",
    };
    if !is_given(&rt, 2) || is_given(&rt, 3) {
        program.complain("two file names are wanted, a job and a report");
        return;
    }
    program.write_verdict::<KEPT, _>((1, 2), |job, report, work| {
        recheck_report(job, report, work).map_err(|refusal| Refused::from(refusal))
    });
}

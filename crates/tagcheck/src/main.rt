// tagcheck: reads a job from standard input and writes its answers, one line an item, or the line of its refusal. Document 01, "The program".
// It only reads, calls and writes: what it says of the job is saying's, and true. Rests on that and on serving.
#![tactic(auto)]

use saying::answer_job;
use serving::Program;

fn main(rt: HostRuntime) {
    let program = Program {
        runtime: &rt,
        name: "tagcheck",
    };
    program.write_lines(answer_job);
}

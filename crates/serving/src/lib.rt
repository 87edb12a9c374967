// What the programs do alike: a program reads all of its input, lends a call what the call needs, and writes once what the call made, or its refusal. The call
// is handed over as a closure. No contract says what is written, since none can say which bytes are read. Rests on console, on text, and on call_look for what a refusal is.
#![tactic(auto)]

ghost use Rattle.std.specs.Prelude.{◌≤◌, ◌<◌, IfSome, length};

use call_look::Refusal;
use console::{
    open_file, read_argument, read_from, read_input, write_error, write_failure, write_output,
};
use text::tell_refusal;

// One byte more than the longest job allowed.
pub const JOB: usize = 54511;

// The room that a report is lent, and a room that every text of such a report fits: the contract of `text::tell_answer`.
pub const REPORT: usize = 60000;

const TEXT: usize = 214014;

// The numbers of the work table.
pub const WORK: usize = 32768;

// So many bytes hold the longest line of a refusal.
const LINE: usize = 60;

const PATH: usize = 4096;

// The number and the place of a refusal, as its line has them; 0 at 0 where a recheck refuses nothing.
#[derive(Clone, Copy)]
pub struct Refused {
    pub number: u8,
    pub place: usize,
}

impl From<Refusal> for Refused {
    fn from(refusal: Refusal) -> Refused {
        Refused {
            number: u8::from(refusal.reason),
            place: refusal.place,
        }
    }
}

// A program: what it runs on, and its name, with which each of its complaints begins. What lends large rooms stands in a frame of its own, so that no way
// through a program needs the stack of another.
#[derive(Clone, Copy)]
pub struct Program<'a> {
    pub runtime: &'a HostRuntime,
    pub name: &'a str,
}

impl Program<'_> {
    // A complaint goes to standard error; where that cannot be written either, nobody is left to tell.
    pub fn complain(&self, what: &str) {
        let _ = eprintln!(self.runtime; "{}: {what}", self.name);
    }

    pub fn write(&self, bytes: &[u8]) {
        if write_output(self.runtime, bytes).is_err() {
            self.complain("standard output cannot be written");
        }
    }

    // What standard input holds, or as much of it as there is room for.
    pub fn input<'a>(&self, room: &'a mut [u8]) -> Option<&'a [u8]>
        ensures { IfSome result (λ s. length s.now ≤ length room.old) }
    {
        match read_input(self.runtime, room) {
            Ok(n) => Some(&room[..n]),
            Err(_) => {
                self.complain("standard input cannot be read");
                None
            }
        }
    }

    // Reads the file that an argument names to the front of the room; where it cannot be found or opened, says why.
    fn read_file(&self, argument: usize, room: &mut [u8]) -> Option<usize>
        ensures { IfSome result (λ n. n ≤ length room.old) }
    {
        let mut path = [0u8; PATH];
        let length = match read_argument(self.runtime, argument, &mut path) {
            Ok(n) => n,
            Err(error) => {
                let _ = eprint!(self.runtime; "{}: ", self.name);
                write_failure(self.runtime, b"a file's name", &error);
                return None;
            }
        };
        match open_file(self.runtime, &path[..length]) {
            Ok(mut file) => read_from(&mut file, room).ok(),
            Err(error) => {
                write_failure(self.runtime, &path[..length], &error);
                None
            }
        }
    }

    // What the file that an argument names holds, or as much of it as there is room for. `what` says in a complaint which file it is.
    pub fn file<'a>(&self, argument: usize, what: &str, room: &'a mut [u8]) -> Option<&'a [u8]>
        ensures { IfSome result (λ s. length s.now ≤ length room.old) }
    {
        match self.read_file(argument, room) {
            Some(n) => Some(&room[..n]),
            None => {
                let _ = eprintln!(self.runtime; "{}: {what} cannot be read", self.name);
                None
            }
        }
    }

    // Hands on the line of a refusal.
    pub fn with_line<F: FnOnce(&[u8])>(&self, refused: Refused, write: F)
        requires { F.IsAlwaysCallable write }
    {
        let mut room = [0u8; LINE];
        let told = tell_refusal(refused.number, refused.place, &mut room);
        match told.and_then(|n| room.get(..n)) {
            Some(line) => write(line),
            None => self.complain("the line does not fit"),
        }
    }

    // Answers a job in lines. The call gets the job, the room of its report, the work table and the room of its text, and gives the text's length.
    #[inline(never)]
    pub fn write_lines<F: FnOnce(&[u8], &mut [u8], &mut [u16], &mut [u8]) -> Option<usize>>(
        &self,
        tell: F,
    )
        requires { F.IsAlwaysCallable tell }
    {
        let mut kept = [0u8; JOB];
        if let Some(job) = self.input(&mut kept) {
            self.write_answers(job, tell);
        }
    }

    // Apart, so that what is lent is cleared once: what a function that may end before clears, it clears on entry too.
    fn write_answers<F: FnOnce(&[u8], &mut [u8], &mut [u16], &mut [u8]) -> Option<usize>>(
        &self,
        job: &[u8],
        tell: F,
    )
        requires { F.IsAlwaysCallable tell }
    {
        let mut room = [0u8; REPORT];
        let mut work = [0u16; WORK];
        let mut text = [0u8; TEXT];
        let told = tell(job, &mut room, &mut work, &mut text);
        match told.and_then(|n| text.get(..n)) {
            Some(lines) => self.write(lines),
            None => self.complain("the text does not fit"),
        }
    }

    // Writes the bytes that a call makes of an input, or the line of its refusal, which goes to standard error. The call gets the room and the work table, and
    // gives the number of the bytes.
    pub fn write_made<F: FnOnce(&mut [u8], &mut [u16]) -> Result<usize, Refused>>(
        &self,
        room: &mut [u8],
        make: F,
    )
        requires { F.IsAlwaysCallable make }
    {
        let mut work = [0u16; WORK];
        match make(room, &mut work) {
            Ok(n) => match room.get(..n) {
                Some(made) => self.write(made),
                None => self.complain("standard output cannot be written"),
            },
            Err(refused) => self.with_line(refused, |line| {
                let _ = write_error(self.runtime, line);
            }),
        }
    }

    // Rechecks a report against its job, the files that two arguments name, and writes the line `number place`: what stands behind the letter and the space of the
    // line of a refusal. So many bytes of the report are read.
    #[inline(never)]
    pub fn write_verdict<
        const KEPT: usize,
        F: FnOnce(&[u8], &[u8], &mut [u16]) -> Result<(), Refused>,
    >(&self, arguments: (usize, usize), recheck: F)
        requires size { KEPT < 16777216 }
        requires call { F.IsAlwaysCallable recheck }
    {
        let mut job_room = [0u8; JOB];
        if let Some(job) = self.file(arguments.0, "the job", &mut job_room) {
            self.weigh::<KEPT, F>(job, arguments.1, recheck);
        }
    }

    fn weigh<const KEPT: usize, F: FnOnce(&[u8], &[u8], &mut [u16]) -> Result<(), Refused>>(
        &self,
        job: &[u8],
        argument: usize,
        recheck: F,
    )
        requires size { KEPT < 16777216 }
        requires call { F.IsAlwaysCallable recheck }
    {
        let mut report_room = [0u8; KEPT];
        if let Some(report) = self.file(argument, "the report", &mut report_room) {
            self.write_finding(job, report, recheck);
        }
    }

    fn write_finding<F: FnOnce(&[u8], &[u8], &mut [u16]) -> Result<(), Refused>>(
        &self,
        job: &[u8],
        report: &[u8],
        recheck: F,
    )
        requires { F.IsAlwaysCallable recheck }
    {
        let mut work = [0u16; WORK];
        let found = recheck(job, report, &mut work);
        let verdict = found.err().unwrap_or(Refused {
            number: 0,
            place: 0,
        });
        self.with_line(verdict, |line| {
            if let Some(shown) = line.get(2..) {
                self.write(shown);
            }
        });
    }
}

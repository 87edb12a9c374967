// The job that a script becomes, from the work table into the room. Document 02, No. 4: "The header has length 2"; document 01, "The job and the report". Rests on
// script_shelf, report_write; what the table holds is script_read's.
#![tactic(auto)]

ghost use Rattle.std.specs.Prelude.{◌≡◌, ℕ, ◌+◌, ◌≤◌, ◌<◌, max, length};
ghost use Rattle.report.specs.Report.{laid};
ghost use Rattle.script_meaning.proofs.Shift.{shift};
ghost use Rattle.script_write.specs.Writing.{pair_of, triple_of, FieldPut, FieldsAsk, FieldsPut, JobAsk, JobPut};

use report_write::{put_front, put_number};
use script_shelf::{Counts, cell};

// While a script is read its parts are numbered from 1,001 on; in the job they follow the symbols.
fn tag_of(symbols: u16, number: u16) -> u16
    requires { symbols ≤ 1000 }
    ensures { result ≡ shift symbols number }
{
    if number < 1001 {
        return number;
    }
    number - 1001 + symbols
}

// A field of two numbers.
fn put_pair(room: &mut [u8], at: usize, kind: u8, a: u16, b: u16)
    requires { at + 9 ≤ length room.old }
    ensures { room.new ≡ laid at (pair_of kind a b) room.old }
{
    put_front(room, at, kind, 4);
    put_number(room, at + 3, a);
    put_number(room, at + 5, b);
}

// An 02.
fn put_triple(room: &mut [u8], at: usize, a: u16, b: u16, c: u16)
    requires { at + 9 ≤ length room.old }
    ensures { room.new ≡ laid at (triple_of a b c) room.old }
{
    put_front(room, at, 2, 6);
    put_number(room, at + 3, a);
    put_number(room, at + 5, b);
    put_number(room, at + 7, c);
}

// Field i of the table, at a place of the room; the place behind it.
fn put_field(work: &[u16], symbols: u16, i: usize, room: &mut [u8], at: usize) -> usize
    requires { (32768 ≤ length work.now) × (i < 5501) × (symbols ≤ 1000) × (at + 9 ≤ length room.old) }
    ensures { FieldPut work.now symbols i room.old room.new at result }
{
    let kind = cell(work, script_shelf::KIND, i);
    let a = tag_of(symbols, cell(work, script_shelf::FIRST, i));
    let b = tag_of(symbols, cell(work, script_shelf::SECOND, i));
    let c = tag_of(symbols, cell(work, script_shelf::THIRD, i));
    if kind == 1 {
        put_pair(room, at, 1, a, b);
        return at + 7;
    }
    if kind == 5 {
        put_pair(room, at, 5, a, b);
        return at + 7;
    }
    if kind == 6 {
        put_front(room, at, 6, 0);
        return at + 3;
    }
    put_triple(room, at, a, b, c);
    at + 9
}

// All fields, from a place on; the place behind them.
fn put_fields(work: &[u16], counts: Counts, room: &mut [u8], start: usize) -> usize
    requires { FieldsAsk work.now counts room.old start }
    ensures { FieldsPut work.now counts room.old room.new start result }
{
    let mut at = start;
    for i in 0..usize::from(counts.fields) {
        at = put_field(work, counts.symbols, i, room, at);
    }
    at
}

// How many tags there are: "A script that declares no symbol gets N = 1".
fn tags_of(counts: Counts) -> u16
    requires { counts.symbols + counts.parts ≤ 1000 }
    ensures { result ≡ max 1 (counts.symbols + counts.parts) }
{
    let n = counts.symbols + counts.parts;
    if n == 0 {
        return 1;
    }
    n
}

// The job of the script whose commands the table holds, at the front of the room; its length.
pub fn write_job(work: &[u16], counts: Counts, room: &mut [u8]) -> usize
    requires { JobAsk work.now counts room.old }
    ensures { JobPut work.now counts room.old room.new result }
{
    let tags = tags_of(counts);
    put_front(room, 0, 16, 2);
    put_number(room, 3, tags);
    let at = put_fields(work, counts, room, 5);
    put_front(room, at, 127, 0);
    at + 3
}

// What a report is: its kinds, and in specs/ what its fields must say. The fields are written by report_write and read by report_read. Document 01,
// "The job and the report"; document 02, No. 1. Rests on meaning and job_field.
#![tactic(auto)]

// The kinds of the report's table: 83 to 8A and 8F. They stay bytes and no enum: the writers and readers take any byte as a kind and nothing matches on one, so that
// each use would be `Kind::Led as u8`.

pub const LED: u8 = 131;

pub const BECAUSE: u8 = 132;

pub const APART: u8 = 133;

pub const BREACHED: u8 = 134;

pub const INTACT: u8 = 135;

pub const PARTED: u8 = 136;

pub const JOINED: u8 = 137;

pub const SHEETS: u8 = 138;

pub const TOTALS: u8 = 143;

// The fields of a job: what its bytes say at a place. Document 01, "The job and the report" and "What is lent, and each
// refusal"; document 02, No. 1 to 3, 7 and 9. The field reader below is the only place on this side that makes a tag out of bytes; what limits a field is
// tested in job_limits. Rests on meaning.
#![tactic(auto)]

ghost use Rattle.std.specs.Prelude.{◌≡◌, ◌+◌, ◌≤◌, length};
ghost use Rattle.job_field.specs.Reading.{byte_at, number_at, kind_first, kind_at, kind_later, kind_sheeted, kind_by_edition, sheeted_in, length_of_body, says, body_at, length_at, behind_at, field_of_kind, field_standing, units_stated, offset_of};
ghost use Rattle.job_field.specs.Answer.{number_of, kind_named, kind_of, note_said, field_said, said};
ghost use Rattle.job_field.specs.Items.{stands_for, pairs_noted, sheets_in};

use meaning::Tag;

// Why a job is refused, by the documents' numbers.
#[derive(Clone, Copy, Debug, PartialEq, Eq)]
pub enum Fault {
    // The job ends inside a field or before the end field.
    Cut = 3,
    // An unknown kind, a first field that is neither 10 nor 11, or a second one of either.
    Misplaced = 4,
    // A wrong length for the kind.
    Misfit = 5,
    // N is 0 or above 1,000, or U is above N.
    OutOfRange = 6,
    // The 4,001st record, the 501st pair that must differ, or the 1,001st question.
    TooMany = 7,
    // A byte after the end field.
    Trailing = 8,
    // The first, the second or the third tag of a field is N or more.
    FirstTag = 11,
    SecondTag = 12,
    ThirdTag = 13,
    // A sheet above 9,999.
    Sheet = 17,
}

// The number that the documents give a refusal.
impl From<Fault> for u8 {
    ghost from_gives = { λ fault n. n ≡ number_of fault };

    fn from(fault: Fault) -> u8 {
        fault as u8
    }
}

// How far behind a field's first byte its refusal has its place: at the tag or the sheet itself, where one is at fault. The sheet stands at the end of a field
// of so many bytes of body.
fn offset_of(fault: Fault, stated: usize) -> usize
    requires { stated ≤ 65535 }
    ensures { (result ≡ offset_of stated (number_of fault)) × (result ≤ 65536) }
{
    match fault {
        Fault::FirstTag => 3,
        Fault::SecondTag => 5,
        Fault::ThirdTag => 7,
        Fault::Sheet => stated + 1,
        _ => 0,
    }
}

// The kinds of a job's fields.
#[derive(Clone, Copy, Debug, PartialEq, Eq)]
pub enum Kind {
    First,
    Units,
    Equal,
    Apply,
    Asked,
    Explained,
    Differed,
    Breaking,
    Doubted,
    Last,
    // Those of edition 2: its first field, and its records, which have a sheet.
    Sheets,
    EqualOn,
    ApplyOn,
}

// A note of the job, which is `Note` in specs/Items: a record with its sheet, or two tags that must differ.
#[derive(Clone, Copy, Debug, PartialEq, Eq)]
pub enum Line {
    Equation(Tag, Tag, u16),
    Application(Tag, Tag, Tag, u16),
    Differ(Tag, Tag),
}

// A question of the job, which is `Question` in specs/Items.
#[derive(Clone, Copy, Debug, PartialEq, Eq)]
pub enum Query {
    Ask(Tag, Tag),
    Explain(Tag, Tag),
    Broken,
    Why(Tag, Tag),
}

// What the first field says: N and U, where tags from U up are units, and whether records have sheets.
#[derive(Clone, Copy, Debug, Default, PartialEq, Eq)]
pub struct Head {
    pub size: u16,
    pub units: u16,
    pub sheeted: bool,
}

// What stands at a place of a job. A new kind is a new `Line` or `Query`: here the cases stay these four.
#[derive(Clone, Copy, Debug, PartialEq, Eq)]
pub enum Field {
    Header(Head),
    Noted(Line),
    Posed(Query),
    End,
}

// The kind of the first field, which is 10 hex, with U where its length is 4, or 11 hex, and nothing else.
fn first_kind(byte: u8, stated: u16) -> Option<Kind>
    ensures { kind_of result ≡ kind_first byte stated }
{
    match (byte, stated) {
        (0x10, 4) => Some(Kind::Units),
        (0x10, _) => Some(Kind::First),
        (0x11, _) => Some(Kind::Sheets),
        _ => None,
    }
}

// The kind that a byte names behind the first field, in edition 1, in edition 2, and in either.
fn later_kind(byte: u8) -> Option<Kind>
    ensures { kind_of result ≡ kind_later byte }
{
    match byte {
        0x01 => Some(Kind::Equal),
        0x02 => Some(Kind::Apply),
        0x03 => Some(Kind::Asked),
        0x04 => Some(Kind::Explained),
        0x05 => Some(Kind::Differed),
        0x06 => Some(Kind::Breaking),
        0x07 => Some(Kind::Doubted),
        0x7F => Some(Kind::Last),
        _ => None,
    }
}

fn sheeted_kind(byte: u8) -> Option<Kind>
    ensures { kind_of result ≡ kind_sheeted byte }
{
    match byte {
        0x01 => Some(Kind::EqualOn),
        0x02 => Some(Kind::ApplyOn),
        _ => later_kind(byte),
    }
}

fn edition_kind(second: bool, byte: u8) -> Option<Kind>
    ensures { kind_of result ≡ kind_by_edition second byte }
{
    if second {
        sheeted_kind(byte)
    } else {
        later_kind(byte)
    }
}

// The bytes of a kind's body.
fn body_length(kind: Kind) -> u16
    ensures { result ≡ length_of_body (kind_named kind) }
{
    match kind {
        Kind::Breaking | Kind::Last => 0,
        Kind::First => 2,
        Kind::Units | Kind::Sheets | Kind::Equal | Kind::Asked | Kind::Explained => 4,
        Kind::Differed | Kind::Doubted => 4,
        Kind::Apply | Kind::EqualOn => 6,
        Kind::ApplyOn => 8,
    }
}

// How many records a note stands for.
pub fn stands_for(l: Line) -> u16
    ensures { result ≡ length (stands_for (note_said l)) }
{
    match l {
        Line::Equation(..) | Line::Application(..) => 1,
        Line::Differ(_, _) => 0,
    }
}

// How many pairs that must differ a note has.
pub fn pairs_in(l: Line) -> u16
    ensures { result ≡ length (pairs_noted (note_said l)) }
{
    match l {
        Line::Equation(..) | Line::Application(..) => 0,
        Line::Differ(_, _) => 1,
    }
}

// A byte of the job; one that is not there counts as 0.
fn byte(job: &[u8], at: usize) -> u8
    ensures { result ≡ byte_at job.now at }
{
    if at < job.len() { job[at] } else { 0 }
}

// A number is two bytes, high byte first.
fn number(job: &[u8], at: usize) -> u16
    requires { at ≤ length job.now + 6 }
    ensures { result ≡ number_at job.now at }
{
    let high = u16::from(byte(job, at));
    let low = u16::from(byte(job, at + 1));
    high * 256 + low
}

// Whether the job is of edition 2, which its first byte tells.
pub fn sheeted(job: &[u8]) -> bool
    ensures { result ≡ sheeted_in job.now }
{
    byte(job, 0) == 0x11
}

// The kind at a place whose three bytes are there: 10 hex or 11 hex stands first and nowhere else.
fn kind_at(job: &[u8], at: usize) -> Option<Kind>
    requires { at + 3 ≤ length job.now }
    ensures { kind_of result ≡ kind_at (sheeted_in job.now) at (byte_at job.now at) (length_at job.now at) }
{
    if at == 0 {
        first_kind(byte(job, at), number(job, at + 1))
    } else {
        edition_kind(sheeted(job), byte(job, at))
    }
}

// What a kind says with the numbers of its body: here they become tags.
fn meant(kind: Kind, a: u16, b: u16, c: u16, d: u16) -> Field
    ensures { field_said result ≡ says (kind_named kind) a b c d }
{
    let x = Tag::of(a);
    let y = Tag::of(b);
    let z = Tag::of(c);
    match kind {
        Kind::First => Field::Header(Head {
            size: a,
            units: a,
            sheeted: false,
        }),
        Kind::Units => Field::Header(Head {
            size: a,
            units: b,
            sheeted: false,
        }),
        Kind::Equal => Field::Noted(Line::Equation(x, y, 0)),
        Kind::Apply => Field::Noted(Line::Application(x, y, z, 0)),
        Kind::Asked => Field::Posed(Query::Ask(x, y)),
        Kind::Explained => Field::Posed(Query::Explain(x, y)),
        Kind::Differed => Field::Noted(Line::Differ(x, y)),
        Kind::Breaking => Field::Posed(Query::Broken),
        Kind::Doubted => Field::Posed(Query::Why(x, y)),
        Kind::Last => Field::End,
        Kind::Sheets => Field::Header(Head {
            size: a,
            units: b,
            sheeted: true,
        }),
        Kind::EqualOn => Field::Noted(Line::Equation(x, y, c)),
        Kind::ApplyOn => Field::Noted(Line::Application(x, y, z, d)),
    }
}

// The field of a kind whose body stands at a place, by the body's numbers.
fn body(job: &[u8], at: usize, kind: Kind) -> Field
    requires { at ≤ length job.now }
    ensures { field_said result ≡ body_at job.now at (kind_named kind) }
{
    meant(
        kind,
        number(job, at),
        number(job, at + 2),
        number(job, at + 4),
        number(job, at + 6),
    )
}

// The field of a kind whose first three bytes are there: kind, length, body, in this order.
fn of_kind(job: &[u8], at: usize, named: Option<Kind>) -> Result<Field, Fault>
    requires { at + 3 ≤ length job.now }
    ensures { said result ≡ field_of_kind job.now at (kind_of named) }
{
    let kind = named.ok_or(Fault::Misplaced)?;
    let stated = number(job, at + 1);
    if stated != body_length(kind) {
        return Err(Fault::Misfit);
    }
    if job.len() - (at + 3) < usize::from(stated) {
        return Err(Fault::Cut);
    }
    Ok(body(job, at + 3, kind))
}

// The cursor: the field at a place of a job, or why none stands there.
#[tactic(auto, unfolding(crate::specs::Reading::field_standing))]
pub fn field_at(job: &[u8], at: usize) -> Result<Field, Fault>
    ensures { said result ≡ field_standing job.now at }
{
    if job.len() < 3 || job.len() - 3 < at {
        return Err(Fault::Cut);
    }
    of_kind(job, at, kind_at(job, at))
}

// The place behind a field: its three bytes and as many as it states further on.
pub fn behind(job: &[u8], at: usize) -> usize
    requires { at ≤ length job.now }
    ensures { result ≡ behind_at job.now at }
{
    at + (3 + usize::from(number(job, at + 1)))
}

// The place of a refusal in the field at a place.
pub fn place_of(job: &[u8], at: usize, fault: Fault) -> usize
    requires { at ≤ length job.now }
    ensures { result ≡ at + offset_of (length_at job.now at) (number_of fault) }
{
    at + offset_of(fault, usize::from(number(job, at + 1)))
}

// The thin reader: the job's slice and a position in it, over the cursor.
#[derive(Clone, Copy)]
pub struct Reader<'a> {
    pub job: &'a [u8],
    pub at: usize,
}

impl<'a> Reader<'a> {
    // The field at the reader's position.
    pub fn next(self) -> Result<Field, Fault>
        ensures { said result ≡ field_standing self.entry.job.now self.entry.at }
    {
        field_at(self.job, self.at)
    }
}

// The field at a place, through a reader: who calls it deals with a plain slice and a number.
pub fn read(job: &[u8], at: usize) -> Result<Field, Fault>
    ensures { said result ≡ field_standing job.now at }
{
    Reader { job, at }.next()
}

// U by the first field of a job: tags from it up are units. A field that is no first one states 0.
pub fn units(job: &[u8]) -> u16
    ensures { result ≡ units_stated (field_standing job.now 0) }
{
    match read(job, 0) {
        Ok(Field::Header(head)) => head.units,
        _ => 0,
    }
}

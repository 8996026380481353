// The octet strings of a message by number: 0 the credentials, 1 the parameter, 2 to 33 the attribute rows in the order of the message, 34 to 65 the parameters of the
// application entries.
ghost use Rattle.std.specs.Prelude.{◌≡◌};
ghost use Rattle.exports.specs.Strings.{part, credentials_in, parameter_in, row_string, entry_string, string_part, string_number, string_output, StringGives, EachString};

use crate::refused::refused;
use apdu::{Entry, Lists, Message, Row};
use apdu_reading::Answer;
use refusals::Refusal;
use words::packed;

const CREDENTIALS: u32 = 0;

const PARAMETER: u32 = 1;

const FIRST_ROW: u32 = 2;

const FIRST_ENTRY: u32 = 34;

const FIELDS: u32 = 66;

// A string's part of the message: a bit place and octets.
#[derive(Clone, Copy)]
pub(crate) struct StringPart {
    pub start: usize,
    pub length: usize,
}

fn string_part(present: bool, start: usize, length: u64) -> Option<StringPart>
    ensures { result ≡ part present start length }
{
    present.then_some(StringPart {
        start,
        length: length as usize,
    })
}

fn credentials_of(m: Message) -> Option<StringPart>
    ensures { result ≡ credentials_in m }
{
    match m {
        Message::ActionRequest(x) | Message::EventRequest(x) => {
            string_part(x.has_credentials, x.credentials, x.credentials_length)
        }
        Message::SetRequest(x) => {
            string_part(x.has_credentials, x.credentials, x.credentials_length)
        }
        Message::GetRequest(x) => {
            string_part(x.has_credentials, x.credentials, x.credentials_length)
        }
        _ => None,
    }
}

fn parameter_of(m: Message) -> Option<StringPart>
    ensures { result ≡ parameter_in m }
{
    match m {
        Message::ActionRequest(x) | Message::EventRequest(x) => {
            string_part(x.kind == apdu::OCTET_STRING, x.start, x.n)
        }
        Message::ActionResponse(x) => string_part(x.kind == apdu::OCTET_STRING, x.start, x.n),
        _ => None,
    }
}

fn row_string(row: Row) -> Option<StringPart>
    ensures { result ≡ row_string row }
{
    string_part(
        u64::from(row.kind) == apdu::OCTET_STRING,
        row.start as usize,
        u64::from(row.n),
    )
}

fn entry_string(entry: Entry) -> Option<StringPart>
    ensures { result ≡ entry_string entry }
{
    string_part(
        u64::from(entry.kind) == apdu::OCTET_STRING,
        entry.start as usize,
        u64::from(entry.n),
    )
}

fn part_of(m: Message, lists: Lists, field: u32) -> Option<StringPart>
    ensures { result ≡ string_part m lists field }
{
    match field {
        CREDENTIALS => credentials_of(m),
        PARAMETER => parameter_of(m),
        FIRST_ROW..FIRST_ENTRY => row_string(lists.rows[(field - FIRST_ROW) as usize]),
        FIRST_ENTRY..FIELDS => entry_string(lists.entries[(field - FIRST_ENTRY) as usize]),
        _ => None,
    }
}

fn give(s: &[u8], part: Option<StringPart>, out: &mut [u8]) -> u64
    ensures { (result ≡ string_number s.now part out.old) × (out.new ≡ string_output s.now part out.old) }
{
    match part {
        None => packed(0, 0, 0, 0),
        Some(StringPart { start, length }) => {
            if bits::copy_string(s, start, length, out, 0) {
                packed(0, 1, length, 0)
            } else {
                refused(Refusal::OutputTooSmall)
            }
        }
    }
}

// Writes the octets of a string of the message `s` to the front of `out`: kind 0 is no such string, 1 one whose octets are first. Refused as reading
// refuses, first being the position; then 22.
#[unsafe(no_mangle)]
pub extern "C" fn semuryeon_string(s: &[u8], field: u32, out: &mut [u8]) -> u64
    ensures answer { StringGives s.now field out.old result out.new }
    ensures inside { EachString }
{
    let reading = apdu_reading::read(s);
    match reading.answer {
        Answer::Refused(number, position) => packed(number, 0, position, 0),
        Answer::Message(m) => give(s, part_of(m, reading.lists, field), out),
    }
}

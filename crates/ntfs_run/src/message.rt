//! The line that says why a command was refused.
ghost use Rattle.std.specs.Prelude.{◌≡◌, ◌≤◌, ◌+◌, ◌++◌, ◌∷◌, [], length, codes, unwrap_or};
ghost use Rattle.hex.specs.Hex.{encode_lower};
ghost use Rattle.std.specs.Int.{w16, w32, to_be_bytes};
ghost use Rattle.ntfs_base.specs.Sink.{Put};
ghost use Rattle.ntfs_base.specs.Causes.{SinkCause};
ghost use Rattle.ntfs_run.specs.Message.{with_number, end_in, end_named, flags_text, lack_text, line_for, message_for};
ghost use Rattle.ntfs_run.specs.Message.{missing_text, name_in, rule_number, rule_text, status_text, tool_word};
ghost use Rattle.ntfs_run.specs.Message.{type_text, usage_text, without_zeros, word_in, word_named};

use crate::status::Status;
use ntfs_base::{Lack, Line, Missing, Named, PutFault, Rule, Sink, UsageKind};
use ntfs_words::{Request, Text, Tool, WordsFault, tool_name};

/// Appends the text of a status, up to the name of a file.
#[tactic(auto, unfolding(crate::specs::Message::status_text))]
fn push_status(line: &mut Line, status: &Status)
    requires { length line.old ≤ 20 }
    ensures value { line.new ≡ line.old ++ status_text status.now }
    ensures room { length line.new ≤ 220 }
{
    match *status {
        Status::Done => {}
        Status::Usage { kind } => push_pair(line, b"usage: ", usage_text(kind)),
        Status::Absent { .. } => push_text(line, b"no such file: "),
        Status::Present { .. } => push_text(line, b"file exists: "),
        Status::NotNtfs => push_text(line, b"not an NTFS volume"),
        Status::BadGeometry { field, value } => push_two(
            line,
            b"bad geometry: field ",
            u64::from(field),
            b" value ",
            value,
        ),
        Status::ImageShort { len, need } => push_two(
            line,
            b"image has ",
            len,
            b" bytes, needs ",
            need,
        ),
        Status::Damaged { rule, number } => push_rule(line, b"damaged: rule ", rule, number),
        Status::Dirty => push_text(line, b"volume is dirty"),
        Status::ShortClusters { need, free } => {
            push_two(line, b"needs ", need, b" clusters, ", free);
            push_text(line, b" are free");
        }
        Status::ShortRun { need, longest } => push_two(
            line,
            b"needs ",
            need,
            b" clusters in a row, longest free run is ",
            longest,
        ),
        Status::ShortRoom { number, need, have } => {
            push_two(line, b"record ", number, b" needs ", need);
            push_number(line, b" bytes, has ", u64::from(have));
        }
        Status::ShortGeometry { lack, have, need } => {
            push_pair(line, b"size out of range: ", lack_text(lack));
            push_number(line, b" has ", have);
            push_number(line, b", needs ", need);
        }
        Status::NotFound { what } => push_missing(line, what),
        Status::NotPlain { flags } => push_flags(line, b"stream is not plain: flags ", flags),
        Status::Guarded { number, kind } => {
            push_number(line, b"record ", number);
            push_type(line, b" type ", kind);
            push_text(line, b" may not be written");
        }
        Status::TooLong { have, want } => push_two(
            line,
            b"stream has room for ",
            have,
            b" bytes, source has ",
            want,
        ),
        Status::BadClone { place } => push_number(line, b"bad clone image at byte ", place),
        Status::ReadFault => push_text(line, b"read fault"),
        Status::WriteFault => push_text(line, b"write fault"),
        Status::NoMemory => push_text(line, b"no memory"),
        Status::CannotMend { rule, number } => push_rule(line, b"cannot mend: rule ", rule, number),
    }
}

/// Appends a text of at most 40 bytes.
fn push_text(line: &mut Line, text: &[u8])
    requires room { length line.old ≤ 160 }
    requires short { length text.now ≤ 40 }
    ensures value { line.new ≡ line.old ++ text.now }
    ensures room { length line.new ≤ length line.old + 40 }
{
    line.push(text);
}

/// Appends two texts of at most 20 bytes each.
fn push_pair(line: &mut Line, text: &[u8], more: &[u8])
    requires room { length line.old ≤ 160 }
    requires text { length text.now ≤ 20 }
    requires more { length more.now ≤ 20 }
    ensures value { line.new ≡ line.old ++ (text.now ++ more.now) }
    ensures room { length line.new ≤ length line.old + 40 }
{
    line.push(text);
    line.push(more);
}

/// Appends a text of at most 40 bytes and a number.
fn push_number(line: &mut Line, text: &[u8], number: u64)
    requires room { length line.old ≤ 160 }
    requires short { length text.now ≤ 40 }
    ensures value { line.new ≡ line.old ++ with_number text.now number }
    ensures room { length line.new ≤ length line.old + (length text.now + 20) }
{
    line.push(text);
    line.push_number(number);
}

/// Appends two texts of at most 20 and 40 bytes, each with a number.
fn push_two(line: &mut Line, text: &[u8], number: u64, more: &[u8], other: u64)
    requires room { length line.old ≤ 100 }
    requires text { length text.now ≤ 20 }
    requires more { length more.now ≤ 40 }
    ensures value { line.new ≡ line.old ++ (with_number text.now number ++ with_number more.now other) }
    ensures room { length line.new ≤ length line.old + 100 }
{
    push_number(line, text, number);
    push_number(line, more, other);
}

/// Appends a text, a rule and a record.
fn push_rule(line: &mut Line, text: &[u8], rule: Rule, number: u64)
    requires room { length line.old ≤ 20 }
    requires short { length text.now ≤ 40 }
    ensures value { line.new ≡ line.old ++ (text.now ++ rule_text rule number) }
    ensures room { length line.new ≤ length line.old + 160 }
{
    push_text(line, text);
    push_number(line, b"C", u64::from(rule_number(rule)));
    push_number(line, b" record ", number);
}

#[tactic(auto)]
fn rule_number(rule: Rule) -> u8
    ensures { result ≡ rule_number rule }
{
    match rule {
        Rule::C1 => 1,
        Rule::C2 => 2,
        Rule::C3 => 3,
        Rule::C4 => 4,
        Rule::C5 => 5,
        Rule::C6 => 6,
        Rule::C7 => 7,
        Rule::C8 => 8,
        Rule::C9 => 9,
        Rule::C10 => 10,
        Rule::C11 => 11,
        Rule::C12 => 12,
        Rule::C13 => 13,
        Rule::C14 => 14,
        Rule::C15 => 15,
        Rule::C16 => 16,
    }
}

fn push_missing(line: &mut Line, what: Missing)
    requires { length line.old ≤ 20 }
    ensures value { line.new ≡ line.old ++ (codes "not found: " ++ missing_text what) }
    ensures room { length line.new ≤ 160 }
{
    push_text(line, b"not found: ");
    match what {
        Missing::Part { index } => push_number(line, b"path part ", index),
        Missing::Record { number } => push_number(line, b"record ", number),
        Missing::Stream => push_text(line, b"stream"),
    }
}

/// Appends a text and the flags of an attribute in four hexadecimal digits.
fn push_flags(line: &mut Line, text: &[u8], flags: u16)
    requires room { length line.old ≤ 20 }
    requires short { length text.now ≤ 40 }
    ensures value { line.new ≡ line.old ++ (text.now ++ flags_text flags) }
    ensures room { length line.new ≤ 160 }
{
    push_text(line, text);
    push_text(line, b"0x");
    line.push_hex(&flags.to_be_bytes());
}

/// Appends a text and an attribute type in hexadecimal digits without leading zeros.
fn push_type(line: &mut Line, text: &[u8], kind: u32)
    requires room { length line.old ≤ 100 }
    requires short { length text.now ≤ 20 }
    ensures value { line.new ≡ line.old ++ (text.now ++ type_text kind) }
    ensures room { length line.new ≤ length line.old + 60 }
{
    let mut digits = Line::new();
    digits.push_hex(&kind.to_be_bytes());
    push_pair(line, text, b"0x");
    push_text(line, without_zeros(digits.as_bytes()));
}

/// The digits without the zeros in front, but for a last one.
fn without_zeros(digits: &[u8]) -> &[u8]
    ensures value { result.now ≡ without_zeros digits.entry.now }
    ensures room { length result.now ≤ length digits.entry.now }
{
    let mut left = digits;
    'zeros: while left.len() > 1 && left[0] == b'0' {
        left = &left[1..];
    }
    left
}

fn usage_text(kind: UsageKind) -> &'static [u8]
    ensures value { result.now ≡ usage_text kind }
    ensures room { length result.now ≤ 20 }
{
    match kind {
        UsageKind::Tool => b"tool",
        UsageKind::Line => b"line",
        UsageKind::Combination => b"combination",
        UsageKind::Number => b"number",
        UsageKind::SameName => b"same name",
    }
}

fn lack_text(lack: Lack) -> &'static [u8]
    ensures value { result.now ≡ lack_text lack }
    ensures room { length result.now ≤ 20 }
{
    match lack {
        Lack::Image => b"image",
        Lack::Count => b"count",
        Lack::Boot => b"boot",
    }
}

/// Puts the line for a status, and nothing where the work was done. It takes no memory.
pub fn put_message<E: Sink>(
    tool: Option<Tool>,
    request: &Result<Request, WordsFault>,
    status: &Status,
    err: &mut E,
) -> Result<(), PutFault>
    ensures put { Put (message_for tool request.now status.now) (E.seen err.old) result
        (E.seen err.new) }
    ensures cause { SinkCause (E.faults err.old) (E.faults err.new) result }
{
    match *status {
        Status::Done => Ok(()),
        _ => put_line(tool, request, status, err),
    }
}

#[tactic(auto, unfolding(crate::specs::Message::line_for))]
fn put_line<E: Sink>(
    tool: Option<Tool>,
    request: &Result<Request, WordsFault>,
    status: &Status,
    err: &mut E,
) -> Result<(), PutFault>
    ensures put { Put (line_for tool request.now status.now) (E.seen err.old) result (E.seen err.new) }
    ensures cause { SinkCause (E.faults err.old) (E.faults err.new) result }
{
    let mut front = Line::new();
    front.push(tool_word(tool));
    front.push(b": ");
    push_status(&mut front, status);
    put_named(front.as_bytes(), request, status, err)
}

/// Puts a text, the name of the host file that a status speaks of, and a line feed.
fn put_named<E: Sink>(
    front: &[u8],
    request: &Result<Request, WordsFault>,
    status: &Status,
    err: &mut E,
) -> Result<(), PutFault>
    ensures put { Put (front.now ++ (name_in request.now status.now ++ (10 ∷ []))) (E.seen err.old) result
        (E.seen err.new) }
    ensures cause { SinkCause (E.faults err.old) (E.faults err.new) result }
{
    err.put(front)?;
    put_name(request, status, err)
}

/// Puts the name in its two pieces, and a line feed.
fn put_name<E: Sink>(
    request: &Result<Request, WordsFault>,
    status: &Status,
    err: &mut E,
) -> Result<(), PutFault>
    ensures put { Put (name_in request.now status.now ++ (10 ∷ [])) (E.seen err.old) result (E.seen err.new) }
    ensures cause { SinkCause (E.faults err.old) (E.faults err.new) result }
{
    put_two(err, word_in(request, status), end_in(request, status))?;
    err.put(b"\n")
}

/// Puts two texts, one after the other.
fn put_two<E: Sink>(err: &mut E, text: &[u8], more: &[u8]) -> Result<(), PutFault>
    ensures put { Put (text.now ++ more.now) (E.seen err.old) result (E.seen err.new) }
    ensures cause { SinkCause (E.faults err.old) (E.faults err.new) result }
{
    err.put(text)?;
    err.put(more)
}

fn tool_word(tool: Option<Tool>) -> &'static [u8]
    ensures value { result.now ≡ tool_word tool }
    ensures room { length result.now ≤ 12 }
{
    match tool {
        None => b"ntfsprogs",
        Some(tool) => tool_name(tool).as_bytes(),
    }
}

/// What the name of the host file begins with that a status speaks of: a word of the request.
fn word_in<'a>(request: &'a Result<Request, WordsFault>, status: &Status) -> &'a [u8]
    ensures { result.now ≡ word_in request.entry.now status.now }
{
    match (request, *status) {
        (Ok(request), Status::Absent { file }) => word_named(request, file).as_bytes(),
        (Ok(request), Status::Present { file }) => word_named(request, file).as_bytes(),
        _ => b"",
    }
}

/// What stands behind that word in the name.
fn end_in(request: &Result<Request, WordsFault>, status: &Status) -> &'static [u8]
    ensures { result.now ≡ end_in request.now status.now }
{
    match (request, *status) {
        (Ok(request), Status::Absent { file }) => end_named(request, file),
        (Ok(request), Status::Present { file }) => end_named(request, file),
        _ => b"",
    }
}

/// The word of a request that the name of a host file begins with.
fn word_named<'a>(request: &'a Request, file: Named) -> &'a str
    ensures { result.now ≡ word_named request.entry.now file }
{
    match (request, file) {
        (Request::Info { image, .. }, Named::Image) => image.as_str(),
        (Request::Ls { image, .. }, Named::Image) => image.as_str(),
        (Request::Cat { image, .. }, Named::Image) => image.as_str(),
        (Request::Cluster { image, .. }, Named::Image) => image.as_str(),
        (Request::Clone { source, .. }, Named::Source) => text_or_none(source),
        (Request::Clone { output, .. }, Named::Output) => text_or_none(output),
        (Request::Make { file, .. }, Named::Output) => file.as_str(),
        (Request::Trial { name, .. }, Named::Output) => name.as_str(),
        (Request::Trial { name, .. }, Named::Clone) => name.as_str(),
        (Request::Trial { name, .. }, Named::Back) => name.as_str(),
        _ => "",
    }
}

/// What stands behind that word: ntfstrial's second and third file bear the name of the first one and an end.
fn end_named(request: &Request, file: Named) -> &'static [u8]
    ensures { result.now ≡ end_named request.now file }
{
    match (request, file) {
        (Request::Trial { .. }, Named::Clone) => b".clone",
        (Request::Trial { .. }, Named::Back) => b".back",
        _ => b"",
    }
}

/// A text, or an empty one where there is none.
fn text_or_none(text: &Option<Text>) -> &str
    ensures { result.now ≡ unwrap_or text.entry.now [] }
{
    match text {
        None => "",
        Some(text) => text.as_str(),
    }
}

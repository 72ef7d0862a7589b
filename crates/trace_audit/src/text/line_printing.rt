//! Writing lines.

ghost use Rattle.std.specs.Prelude.{◌≡◌, ◌∷◌, ◌++◌, [], decimal, OnOk, OnErr};
ghost use Rattle.trace_audit.specs.Fields.{field_text, fields_text};
ghost use Rattle.trace_audit.specs.Inner.Printing.{row_of_ref, pair_text, part_after, IsLonger};
ghost use Rattle.trace_audit.specs.Text.{topics_text, row_text};

use super::field::Field;
use super::row_ref::RowRef;
use itoa::Buffer;
use mcast_txn::{NoMemory, Octets, Topic};

/// Appends a line: the fields with a space between each two, and LF. After `NoMemory` the list is what it was.
pub fn put_line(out: &mut Octets, fields: &[Field<'_>]) -> Result<(), NoMemory>
    ensures ok { OnOk result (out.new ≡ out.old ++ (fields_text fields.now ++ 10 ∷ [])) }
    ensures err { OnErr result (out.new ≡ out.old) }
{
    let len = out.len();
    let written = put_ended(out, fields);
    if written.is_err() {
        out.truncate(len);
    }
    written
}

/// Writes a row's line.
pub(crate) fn put_row(out: &mut Octets, row_ref: RowRef<'_>) -> Result<(), NoMemory>
    ensures { OnOk result (out.new ≡ out.old ++ (row_text (row_of_ref row_ref.entry) ++ 10 ∷ [])) }
{
    macro_rules! rows {
        ($($variant:ident($row:ident) => $word:literal $($field:ident($value:expr))*;)*) => {
            match row_ref {
                $(RowRef::$variant($row) => {
                    put_line(out, &[Field::Word($word), $(Field::$field($value)),*])
                })*
            }
        };
    }
    rows! {
        Log(row) => b"log" Topic(row.topic) Id(row.id) Stamp(row.stamp) Topics(&row.topics);
        Span(row) => b"span" Number(row.sub) Topic(row.topic) Stamp(row.from) End(row.to);
        Queue(row) => b"queue" Number(row.sub) Id(row.id) Stamp(row.stamp);
    }
}

/// Writes fields with a space between each two, and LF.
fn put_ended(out: &mut Octets, fields: &[Field<'_>]) -> Result<(), NoMemory>
    ensures ok { OnOk result (out.new ≡ out.old ++ (fields_text fields.now ++ 10 ∷ [])) }
    ensures err { OnErr result (IsLonger out.old out.new) }
{
    put_fields(out, fields)?;
    out.push(b'\n')
}

/// Writes fields with a space between each two.
fn put_fields(out: &mut Octets, fields: &[Field<'_>]) -> Result<(), NoMemory>
    ensures ok { OnOk result (out.new ≡ out.old ++ fields_text fields.now) }
    ensures err { OnErr result (IsLonger out.old out.new) }
{
    let mut first = true;
    for &field in fields {
        next_field(out, first, field)?;
        first = false;
    }
    Ok(())
}

/// Writes a field, after a space unless it is the first.
fn next_field(out: &mut Octets, first: bool, field: Field<'_>) -> Result<(), NoMemory>
    ensures ok { OnOk result (out.new ≡ out.old ++ part_after 32 first (field_text field.entry)) }
    ensures err { OnErr result (IsLonger out.old out.new) }
{
    if !first {
        out.push(b' ')?;
    }
    put_field(out, field)
}

/// Writes a field.
fn put_field(out: &mut Octets, field: Field<'_>) -> Result<(), NoMemory>
    ensures ok { OnOk result (out.new ≡ out.old ++ field_text field.entry) }
    ensures err { OnErr result (IsLonger out.old out.new) }
{
    match field {
        Field::Word(octets) => out.extend(octets),
        Field::Number(n) => digits(out, n),
        Field::Topic(topic) => digits(out, topic.0 as u64),
        Field::Id(id) => pair(out, id.sender.0, b' ', id.seq),
        Field::Stamp(stamp) | Field::End(Some(stamp)) => {
            pair(out, stamp.n, b'.', stamp.topic.0 as u64)
        }
        Field::End(None) => out.push(b'-'),
        Field::Topics(topics) => put_topics(out, topics),
    }
}

/// Writes a number's digits.
fn digits(out: &mut Octets, n: u64) -> Result<(), NoMemory>
    ensures ok { OnOk result (out.new ≡ out.old ++ decimal n) }
    ensures err { OnErr result (out.new ≡ out.old) }
{
    out.extend(Buffer::new().format(n).as_bytes())
}

/// Writes two numbers' digits with this octet between them.
fn pair(out: &mut Octets, a: u64, between: u8, b: u64) -> Result<(), NoMemory>
    ensures ok { OnOk result (out.new ≡ out.old ++ pair_text a between b) }
    ensures err { OnErr result (IsLonger out.old out.new) }
{
    digits(out, a)?;
    out.push(between)?;
    digits(out, b)
}

/// Writes topics.
fn put_topics(out: &mut Octets, topics: &[Topic]) -> Result<(), NoMemory>
    ensures ok { OnOk result (out.new ≡ out.old ++ topics_text topics.now) }
    ensures err { OnErr result (IsLonger out.old out.new) }
{
    let mut first = true;
    for &topic in topics {
        next_topic(out, first, topic)?;
        first = false;
    }
    Ok(())
}

/// Writes a topic, after a comma unless it is the first.
fn next_topic(out: &mut Octets, first: bool, topic: Topic) -> Result<(), NoMemory>
    ensures ok { OnOk result (out.new ≡ out.old ++ part_after 44 first (decimal topic.0)) }
    ensures err { OnErr result (IsLonger out.old out.new) }
{
    if !first {
        out.push(b',')?;
    }
    digits(out, topic.0 as u64)
}

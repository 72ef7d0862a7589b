//! Printing an auditor's answer.

ghost use Rattle.std.specs.Prelude.{◌≡◌, ◌++◌, ◌∷◌, [], IfOk, OnOk};
ghost use Rattle.std.specs.List.{flat_map};
ghost use Rattle.trace_audit.specs.AuditText.{agreed_line, agreed_text, bad_text, refusal_text};
ghost use Rattle.trace_audit.specs.Fields.{fields_text};
ghost use Rattle.trace_audit.specs.Inner.Orders.{log_rows_of_refs};

use super::field::Field;
use super::line_printing::put_line;
use super::parse_fault::ParseFault;
use crate::agreed::Agreed;
use crate::fault::AuditFault;
use crate::row::LogRow;
use mcast_txn::{NoMemory, Octets};
use std::alloc::Global;

impl Agreed<'_> {
    /// Its text: a line `agreed S Q N.T TOPICS` for each transaction, and then `complete` or `incomplete`.
    pub fn print(&self, alloc: Global) -> Result<Octets, NoMemory>
        ensures { IfOk result (λ text. text ≡ agreed_text self.now.rows self.now.complete) }
    {
        let mut text = Octets::new(alloc);
        put_agreed(&mut text, &self.rows)?;
        if self.complete {
            text.extend(b"complete\n")?;
        } else {
            text.extend(b"incomplete\n")?;
        }
        Ok(text)
    }
}

/// Writes a line for each transaction.
fn put_agreed(out: &mut Octets, rows: &[&LogRow]) -> Result<(), NoMemory>
    ensures { OnOk result (out.new ≡ out.old ++ flat_map agreed_line (log_rows_of_refs rows.now)) }
{
    for &row in rows {
        put_row(out, row)?;
    }
    Ok(())
}

/// Writes the line of a transaction.
fn put_row(out: &mut Octets, row: &LogRow) -> Result<(), NoMemory>
    ensures { OnOk result (out.new ≡ out.old ++ agreed_line row.now.row) }
{
    let topics = Field::Topics(&row.topics);
    put_line(
        out,
        &[
            Field::Word(b"agreed"),
            Field::Id(row.id),
            Field::Stamp(row.stamp),
            topics,
        ],
    )
}

/// A text of one line.
fn one_line(alloc: Global, fields: &[Field<'_>]) -> Result<Octets, NoMemory>
    ensures { IfOk result (λ text. text ≡ fields_text fields.now ++ 10 ∷ []) }
{
    let mut text = Octets::new(alloc);
    put_line(&mut text, fields)?;
    Ok(text)
}

impl AuditFault {
    /// Its text: a line `no NUMBER NAME`, with the topic or the subscription where it has one.
    pub fn print(self, alloc: Global) -> Result<Octets, NoMemory>
        ensures { IfOk result (λ text. text ≡ refusal_text self) }
    {
        let no = Field::Word(b"no");
        let number = Field::Number(self.number() as u64);
        macro_rules! names {
            ($($fault:pat => $name:literal $($field:expr)?;)*) => {
                match self {
                    $($fault => one_line(alloc, &[no, number, Field::Word($name) $(, $field)?]),)*
                }
            };
        }
        names! {
            AuditFault::NoMemory => b"NoMemory";
            AuditFault::LogOrder => b"LogOrder";
            AuditFault::TwoVerdicts => b"TwoVerdicts";
            AuditFault::SenderOrder => b"SenderOrder";
            AuditFault::Hole(topic) => b"Hole" Field::Topic(topic);
            AuditFault::QueueRow(sub) => b"QueueRow" Field::Number(sub);
            AuditFault::SameStamp => b"SameStamp";
        }
    }
}

impl ParseFault {
    /// Its text: a line `bad NUMBER NAME`, with the number of the line where it has one.
    pub fn print(self, alloc: Global) -> Result<Octets, NoMemory>
        ensures { IfOk result (λ text. text ≡ bad_text self) }
    {
        let bad = Field::Word(b"bad");
        let number = Field::Number(self.number() as u64);
        match self {
            ParseFault::BadRow(line) => {
                let line = Field::Number(line as u64);
                one_line(alloc, &[bad, number, Field::Word(b"BadRow"), line])
            }
            ParseFault::NoMemory => one_line(alloc, &[bad, number, Field::Word(b"NoMemory")]),
        }
    }
}

ghost use Rattle.std.specs.Prelude.{◌≡◌, ◌++◌, ◌∷◌, [], map, IfOk, codes};
ghost use Rattle.c_cursor.specs.Refusals.{left_out_text};
ghost use Rattle.refinedc_cli.specs.Texts.{line_text, listing_text, place_text, goal_text, refused_text};
ghost use Rattle.refinedc_cli.specs.Texts.{fault_kind_text, fault_text, read_fault_text, limit_text};

use crate::limit::Limit;
use crate::listing::{Certificate, RuleLine};
use crate::outcome::{FileFault, OpenGoal};
use c_lexer::LexFaultKind;
use c_parser::LeftOut;
use rc_text::{Bytes, NoMemory, Place, Text, joined_lines};
use std::alloc::Global;

/// On standard error for words that mean no command.
pub const USAGE_TEXT: &str = "usage: refinedc COMMAND FILE\n";

/// On standard error where standard output failed.
pub const WRITE_FAULT_TEXT: &str = "write fault\n";

/// On standard error where memory ran out.
pub const NO_MEMORY_TEXT: &str = "no memory\n";

/// On standard output for an accepted file: its lines, between the format's name and `accepted`.
pub fn listing_text(alloc: Global, lines: &[RuleLine]) -> Result<Bytes, NoMemory>
    ensures { IfOk result (λ text. text ≡ listing_text lines.now) }
{
    let mut texts = Vec::new(alloc);
    texts.push(Text::from_str(alloc, "refinedc 1")?)?;
    push_lines(alloc, lines, &mut texts)?;
    texts.push(Text::from_str(alloc, "accepted")?)?;
    joined_lines(alloc, texts.as_slice())
}

/// Puts the lines at the end of texts.
fn push_lines(alloc: Global, lines: &[RuleLine], texts: &mut Vec<Text>) -> Result<(), NoMemory>
    ensures { IfOk result (λ _. texts.new.items ≡ texts.old.items ++ map line_text lines.now) }
{
    for line in lines {
        texts.push(line_text(alloc, *line)?)?;
    }
    Ok(())
}

fn line_text(alloc: Global, line: RuleLine) -> Result<Text, NoMemory>
    ensures { IfOk result (λ text. text ≡ line_text line) }
{
    let rule = line.rule;
    let text = match line.certificate {
        None => format!(in alloc; "{rule}")?,
        Some(Certificate::Trivial) => format!(in alloc; "{rule} t")?,
    };
    Ok(Text::from_string(text))
}

/// On standard output for a refused file: where a goal stayed open, and which.
pub fn refused_text(
    alloc: Global,
    name: &str,
    place: Place,
    goal: OpenGoal,
) -> Result<Bytes, NoMemory>
    ensures { IfOk result (λ text. text ≡ refused_text name.now place goal) }
{
    let mut text = Bytes::from_slice(alloc, b"refused ")?;
    append_place(alloc, &mut text, name, place)?;
    append_goal(alloc, &mut text, goal)?;
    text.append(b"\n")?;
    Ok(text)
}

/// Puts a place in a file at the end of a text.
fn append_place(alloc: Global, text: &mut Bytes, name: &str, place: Place) -> Result<(), NoMemory>
    ensures { IfOk result (λ _. text.new ≡ text.old ++ place_text name.now place) }
{
    let line = place.line;
    let column = place.column;
    let said = format!(in alloc; "{name}:{line}:{column}: ")?;
    text.append(said.as_bytes())?;
    Ok(())
}

/// Puts an open goal at the end of a text.
fn append_goal(alloc: Global, text: &mut Bytes, goal: OpenGoal) -> Result<(), NoMemory>
    ensures { IfOk result (λ _. text.new ≡ text.old ++ goal_text goal) }
{
    match goal {
        OpenGoal::Unsolved { left, right } => append_equation(alloc, text, left, right),
    }
}

fn append_equation(alloc: Global, text: &mut Bytes, left: u32, right: u32) -> Result<(), NoMemory>
    ensures { IfOk result (λ _. text.new ≡ text.old ++ goal_text (OpenGoal.Unsolved left right)) }
{
    let said = format!(in alloc; "unsolved {left} = {right}")?;
    text.append(said.as_bytes())?;
    Ok(())
}

/// On standard error for a file with a fault.
pub fn fault_text(
    alloc: Global,
    name: &str,
    place: Place,
    fault: &FileFault,
) -> Result<Bytes, NoMemory>
    ensures { IfOk result (λ text. text ≡ fault_text name.now place fault.now) }
{
    let mut text = Bytes::new(alloc);
    append_place(alloc, &mut text, name, place)?;
    append_fault_kind(&mut text, fault)?;
    text.append(b"\n")?;
    Ok(text)
}

/// Puts the kind of a fault, and the name that it has, at the end of a text.
fn append_fault_kind(text: &mut Bytes, fault: &FileFault) -> Result<(), NoMemory>
    ensures { IfOk result (λ _. text.new ≡ text.old ++ fault_kind_text fault.now) }
{
    match fault {
        FileFault::Lexical(LexFaultKind::BadByte) => text.append(b"BadByte"),
        FileFault::Lexical(LexFaultKind::OpenComment) => text.append(b"OpenComment"),
        FileFault::Lexical(LexFaultKind::OpenString) => text.append(b"OpenString"),
        FileFault::Lexical(LexFaultKind::BadNumber) => text.append(b"BadNumber"),
        FileFault::Lexical(LexFaultKind::Directive(None)) => text.append(b"Directive"),
        FileFault::Lexical(LexFaultKind::Directive(Some(word))) => append_directive(text, word),
        FileFault::Syntax => text.append(b"Syntax"),
        FileFault::LeftOutForm(form) => append_left_out(text, *form),
        FileFault::NotYet => text.append(b"NotYet"),
    }
}

fn append_directive(text: &mut Bytes, word: &Bytes) -> Result<(), NoMemory>
    ensures { IfOk result (λ _. text.new ≡ text.old ++ (codes "Directive " ++ word.now)) }
{
    text.append(b"Directive ")?;
    text.append(word.as_slice())
}

fn append_left_out(text: &mut Bytes, form: LeftOut) -> Result<(), NoMemory>
    ensures { IfOk result (λ _. text.new ≡ text.old ++ (codes "Refused " ++ left_out_text form)) }
{
    text.append(b"Refused ")?;
    text.append(form.text().as_bytes())
}

/// On standard error for a file that can't be opened or read.
pub fn read_fault_text(alloc: Global, name: &str) -> Result<Bytes, NoMemory>
    ensures { IfOk result (λ text. text ≡ read_fault_text name.now) }
{
    let text = format!(in alloc; "read fault {name}\n")?;
    Bytes::from_slice(alloc, text.as_bytes())
}

/// On standard error for a limit that was passed.
pub fn limit_text(alloc: Global, limit: Limit) -> Result<Bytes, NoMemory>
    ensures { IfOk result (λ text. text ≡ limit_text limit) }
{
    let name = limit.name();
    let number = limit.number();
    let text = format!(in alloc; "limit {name} {number}\n")?;
    Bytes::from_slice(alloc, text.as_bytes())
}

ghost use Rattle.std.specs.Prelude.{◌≡◌, ◌++◌, IfOk, OnOk};
ghost use Rattle.caesium_text.specs.Text.{program_text, whole_line};

use crate::declarations::append_declarations;
use crate::functions::append_functions;
use caesium_ir::Program;
use caesium_lines::{Line, append_line};
use rc_text::{Bytes, NoMemory};
use std::alloc::Global;

/// The text of a program. Two programs that differ in their places alone have the same.
pub fn print(alloc: Global, program: &Program) -> Result<Bytes, NoMemory>
    ensures { IfOk result (λ text. text ≡ program_text program.now) }
{
    let mut text = Bytes::new(alloc);
    append_declarations(alloc, &mut text, &program.table)?;
    append_functions(
        alloc,
        &mut text,
        &program.table,
        program.functions.as_slice(),
    )?;
    Ok(text)
}

/// Puts a line at the end, with its line feed.
#[tactic(auto, unfolding(crate::specs::Text::whole_line))]
pub fn append_whole_line(alloc: Global, text: &mut Bytes, line: Line) -> Result<(), NoMemory>
    ensures { OnOk result (text.new ≡ text.old ++ whole_line line) }
{
    append_line(alloc, text, &line)?;
    text.append(b"\n")
}

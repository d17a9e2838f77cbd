ghost use Rattle.std.specs.Prelude.{◌≡◌, IfOk};
ghost use Rattle.rc_text.specs.Lines.{text_of};

use crate::bytes::Bytes;
use crate::memory::NoMemory;
use crate::text::Text;
use std::alloc::Global;

/// Lines, given without their line feeds, as one text in which each ends with one.
pub fn joined_lines(alloc: Global, lines: &[Text]) -> Result<Bytes, NoMemory>
    ensures { IfOk result (λ text. text ≡ text_of lines.now) }
{
    let mut text = Bytes::new(alloc);
    for line in lines {
        text.append(line.as_bytes())?;
        text.append(b"\n")?;
    }
    Ok(text)
}

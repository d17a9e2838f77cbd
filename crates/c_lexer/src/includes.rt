ghost use Rattle.std.specs.Prelude.{◌≡◌, ◌++◌, [], ◌∷◌, map, IfOk};
ghost use Rattle.rc_text.specs.declared.place.Place.{Place};
ghost use Rattle.c_lexer.specs.Scanning.Reading.{includes_at};

use crate::header::Header;
use crate::tokens::Include;
use rc_text::{NoMemory, Place};
use std::alloc::Global;

/// The includes of a file so far: those with a token behind them, and those whose next token is still to come.
#[derive(Drop)]
pub(crate) struct Includes {
    pub placed: Vec<Include>,
    pub pending: Vec<Header>,
}

impl Includes {
    pub(crate) fn new(alloc: Global) -> Self
        ensures { (next : Place) → includes_at result next ≡ [] }
    {
        Includes {
            placed: Vec::new(alloc),
            pending: Vec::new(alloc),
        }
    }

    /// Adds an include behind the others.
    pub(crate) fn add(&mut self, header: Header) -> Result<(), NoMemory>
        ensures { IfOk result (λ _. (next : Place)
            → includes_at self.new next ≡ includes_at self.old next ++ record { header = header; from = next } ∷ []) }
    {
        self.pending.push(header)?;
        Ok(())
    }

    /// The next token behind the includes so far stands at the place.
    pub(crate) fn reach(&mut self, place: Place) -> Result<(), NoMemory>
        ensures { IfOk result (λ _. (next : Place) → includes_at self.new next ≡ includes_at self.old place) }
    {
        if self.pending.is_empty() {
            return Ok(());
        }
        place_headers(&mut self.placed, self.pending.as_slice(), place)?;
        self.pending.clear();
        Ok(())
    }

    /// All includes, at the end of the file.
    pub(crate) fn at_end(mut self, end: Place) -> Result<Vec<Include>, NoMemory>
        ensures { IfOk result (λ includes. includes.items ≡ includes_at self end) }
    {
        place_headers(&mut self.placed, self.pending.as_slice(), end)?;
        Ok(self.placed)
    }
}

/// Adds these headers as includes from the place on.
fn place_headers(placed: &mut Vec<Include>, headers: &[Header], from: Place) -> Result<(), NoMemory>
    ensures { IfOk result (λ _. placed.new.items ≡ placed.old.items
        ++ map (λ header. record { header = header; from = from }) headers.now) }
{
    for header in headers {
        placed.push(Include {
            header: *header,
            from,
        })?;
    }
    Ok(())
}

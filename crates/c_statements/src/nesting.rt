ghost use Rattle.c_grammar.specs.Depths.{kind_depth};
ghost use Rattle.c_grammar.specs.StatementReading.{kind_at};
ghost use Rattle.c_cursor.specs.Deep.{ReadsDeep};
ghost use Rattle.c_expressions.specs.Parts.{reader};
ghost use Rattle.c_statements.specs.Nests.{Nests};
ghost use Rattle.c_statements.specs.Parts.{position_seen};

use crate::position::Position;
use c_cursor::{Cursor, Deep, ParseRefusal};
use c_syntax::StmtKind;
use std::alloc::Global;

/// The reader of statements, with the reader of those that are nested in them.
#[derive(Drop)]
pub(crate) struct Statements<'g, F> {
    pub alloc: Global,
    /// How many statements may still nest in one another.
    pub room: usize,
    pub read: &'g F,
}

impl<
    'g,
    F: Fn(Global, &mut Cursor<'_>, usize, Position) -> Result<Deep<StmtKind>, ParseRefusal>,
> Statements<'g, F> {
    /// A nested statement behind its labels and attributes.
    pub(crate) fn nested(
        &self,
        cursor: &mut Cursor<'_>,
        position: Position,
    ) -> Result<Deep<StmtKind>, ParseRefusal>
        requires { Nests self.now.room (F.pre self.now.read.now) (F.post self.now.read.now) }
        ensures { ReadsDeep kind_depth (kind_at (reader 200) self.now.room (position_seen position) cursor.old)
            result cursor.new }
    {
        (self.read)(self.alloc, cursor, self.room, position)
    }
}

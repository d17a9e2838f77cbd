ghost use Rattle.c_syntax.specs.Depth.{expression_depth};
ghost use Rattle.c_cursor.specs.Deep.{ReadsDeep};
ghost use Rattle.c_expressions.specs.Parts.{reader};
ghost use Rattle.c_expressions.specs.Nests.{Nests};

use c_cursor::{Cursor, Deep, ParseRefusal};
use c_syntax::Expr;
use sqlite_items::Boxed;
use std::alloc::Global;

/// The reader of types and expressions, with the reader of what is nested in them.
#[derive(Drop)]
pub(crate) struct Grammar<'g, F> {
    pub alloc: Global,
    /// How many expressions may still nest in one another.
    pub room: usize,
    pub read: &'g F,
}

impl<
    'g,
    F: Fn(Global, &mut Cursor<'_>, usize, u8) -> Result<Deep<Boxed<Expr>>, ParseRefusal>,
> Grammar<'g, F> {
    /// An expression of the category that is nested in another or in a type.
    pub(crate) fn expression(
        &self,
        cursor: &mut Cursor<'_>,
        level: u8,
    ) -> Result<Deep<Boxed<Expr>>, ParseRefusal>
        requires { Nests self.now.room (F.pre self.now.read.now) (F.post self.now.read.now) }
        ensures { ReadsDeep expression_depth (reader self.now.room level cursor.old) result cursor.new }
    {
        (self.read)(self.alloc, cursor, self.room, level)
    }
}

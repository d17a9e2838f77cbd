ghost use Rattle.std.specs.Prelude.{◌≡◌, option_copied};
ghost use Rattle.c_syntax.specs.Statements.{statement_at};

use crate::stmt::Stmt;
use sqlite_items::Items;

/// The way from a function's body down to a statement: at each statement the number, from 0, of the child
/// to go on with. The empty path names the body itself.
#[derive(Debug, Drop)]
pub struct Path {
    pub children: Items<usize>,
}

/// The statement that the path names below the body, or none where it names no statement.
pub fn stmt_at<'a>(body: &'a Stmt, path: &Path) -> Option<&'a Stmt>
    ensures { option_copied result ≡ statement_at body.now path.now.children }
{
    let mut statement = body;
    for &number in path.children.as_slice() {
        statement = statement.child(number)?;
    }
    Some(statement)
}

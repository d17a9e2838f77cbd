ghost use Rattle.std.specs.Prelude.{◌≡◌, slice_get, option_copied};
ghost use Rattle.c_syntax.specs.Statements.{children};

use crate::attribute::Attribute;
use crate::declaration::Declaration;
use crate::expr::Expr;
use rc_text::Place;
use sqlite_items::{Boxed, Items};

/// A label of a direct child of a `switch`'s compound (C11 6.8.1). `place` is that of its keyword.
#[derive(Debug, Drop)]
pub enum Label {
    Case { place: Place, value: Expr },
    Default { place: Place },
}

/// A statement, or a declaration among statements (C11 6.8). `place` is that of its first token behind its
/// labels and attributes, its keyword where it begins with one: there its faults and goals stand.
#[cycle(statement)]
#[derive(Debug, Drop)]
pub struct Stmt {
    pub place: Place,
    pub labels: Items<Label>,
    pub attributes: Items<Attribute>,
    pub kind: StmtKind,
}

/// How a `for` begins. `place` is that of the declaration's first token behind its attributes.
#[derive(Debug, Drop)]
pub enum ForInit {
    Nothing,
    Expression(Expr),
    Declaration {
        place: Place,
        attributes: Items<Attribute>,
        declaration: Declaration,
    },
}

/// A statement by its production, without its labels and attributes.
#[cycle(statement)]
#[derive(Debug, Drop)]
pub enum StmtKind {
    Compound(Items<Stmt>),
    Declaration(Declaration),
    Expression(Expr),
    Empty,
    If {
        test: Expr,
        then: Boxed<Stmt>,
    },
    IfElse {
        test: Expr,
        then: Boxed<Stmt>,
        otherwise: Boxed<Stmt>,
    },
    /// The body is a compound, whose children alone have labels.
    Switch {
        value: Expr,
        body: Boxed<Stmt>,
    },
    While {
        test: Expr,
        body: Boxed<Stmt>,
    },
    Do {
        body: Boxed<Stmt>,
        test: Expr,
    },
    For {
        init: ForInit,
        test: Option<Expr>,
        step: Option<Expr>,
        body: Boxed<Stmt>,
    },
    Continue,
    Break,
    Return(Option<Expr>),
}

impl Stmt {
    /// The child of this number, from 0, of those that paths name.
    pub fn child(&self, number: usize) -> Option<&Stmt>
        ensures { option_copied result ≡ slice_get (children self.now) number }
    {
        match (&self.kind, number) {
            (StmtKind::Compound(statements), _) => statements.get(number),
            (StmtKind::If { then, .. }, 0) => Some(then.get()),
            (StmtKind::IfElse { then, .. }, 0) => Some(then.get()),
            (StmtKind::IfElse { otherwise, .. }, 1) => Some(otherwise.get()),
            (StmtKind::Switch { body, .. }, 0) => Some(body.get()),
            (StmtKind::While { body, .. }, 0) => Some(body.get()),
            (StmtKind::Do { body, .. }, 0) => Some(body.get()),
            (StmtKind::For { body, .. }, 0) => Some(body.get()),
            _ => None,
        }
    }
}

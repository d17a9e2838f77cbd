//! Trees made by hand: what each path in them names, and how deep they are.
ghost use Rattle.std.specs.Prelude.{◌≡◌, [], IfOk};
ghost use Rattle.c_syntax.specs.Depth.{expression_depth, statement_depth};

use super::*;
use rc_text::{NoMemory, Place};
use sqlite_items::{Boxed, Items};
use std::alloc::Global;
use std::process::Abort;
use std::test::Fail;

/// A place by which a row tells a statement from all others.
fn at(byte: u32) -> Place {
    Place {
        byte,
        line: 1,
        column: 1,
    }
}

fn statement(alloc: Global, byte: u32, kind: StmtKind) -> Stmt
    ensures { (result.kind ≡ kind) × (result.labels ≡ []) }
{
    Stmt {
        place: at(byte),
        labels: Items::new(alloc),
        attributes: Items::new(alloc),
        kind,
    }
}

/// An empty statement, as the body of another.
fn inner(alloc: Global, byte: u32) -> Result<Boxed<Stmt>, NoMemory> {
    Ok(Boxed::new(alloc, statement(alloc, byte, StmtKind::Empty))?)
}

fn null() -> Expr
    ensures { expression_depth result ≡ 1 }
{
    Expr {
        place: Place::START,
        kind: ExprKind::NullPointer,
    }
}

/// `{ ; break; }` at byte 51, as the body of a `switch`.
fn switch_body(alloc: Global) -> Result<Boxed<Stmt>, NoMemory> {
    let statements = vec![in alloc;
        statement(alloc, 52, StmtKind::Empty),
        statement(alloc, 53, StmtKind::Break),
    ]?;
    let kind = StmtKind::Compound(Items::from_vec(statements));
    Ok(Boxed::new(alloc, statement(alloc, 51, kind))?)
}

/// The forms that have statements below them.
fn nesting(alloc: Global) -> Result<Vec<StmtKind>, NoMemory> {
    Ok(vec![in alloc;
        StmtKind::If {
            test: null(),
            then: inner(alloc, 1)?
        },
        StmtKind::IfElse {
            test: null(),
            then: inner(alloc, 11)?,
            otherwise: inner(alloc, 12)?
        },
        StmtKind::While {
            test: null(),
            body: inner(alloc, 21)?
        },
        StmtKind::Do {
            body: inner(alloc, 31)?,
            test: null()
        },
        StmtKind::For {
            init: ForInit::Expression(null()),
            test: None,
            step: Some(null()),
            body: inner(alloc, 41)?,
        },
        StmtKind::Switch {
            value: null(),
            body: switch_body(alloc)?
        },
    ]?)
}

/// The forms that have none.
fn flat(alloc: Global) -> Result<Vec<StmtKind>, NoMemory> {
    let declaration = Declaration {
        specifier: TypeSpecifier::Integer(IntegerType::Int),
        kind: DeclarationKind::TypeOnly,
    };
    Ok(vec![in alloc;
        StmtKind::Declaration(declaration),
        StmtKind::Expression(null()),
        StmtKind::Empty,
        StmtKind::Continue,
        StmtKind::Break,
        StmtKind::Return(Some(null())),
    ]?)
}

/// A compound of these, each at byte 100 more than its number.
fn compound_of(alloc: Global, kinds: Vec<StmtKind>) -> Result<Stmt, NoMemory> {
    let mut statements = Items::new(alloc);
    let mut byte: u32 = 100;
    for kind in kinds {
        statements.push(statement(alloc, byte, kind))?;
        byte = byte.saturating_add(1);
    }
    Ok(statement(alloc, 0, StmtKind::Compound(statements)))
}

/// A path, and the byte at which the statement stands that it names, if it names one.
type Row = (&'static [usize], Option<u32>);

/// Each child is the statement of its number, and a path past the last child names nothing.
const NESTING: &[Row] = &[
    (&[], Some(0)),
    (&[0], Some(100)),
    (&[0, 0], Some(1)),
    (&[0, 1], None),
    (&[1, 0], Some(11)),
    (&[1, 1], Some(12)),
    (&[1, 2], None),
    (&[2], Some(102)),
    (&[2, 0], Some(21)),
    (&[2, 1], None),
    (&[3, 0], Some(31)),
    (&[3, 1], None),
    (&[4, 0], Some(41)),
    (&[4, 1], None),
    (&[5], Some(105)),
    (&[5, 0], Some(51)),
    (&[5, 0, 0], Some(52)),
    (&[5, 0, 1], Some(53)),
    (&[5, 0, 2], None),
    (&[5, 1], None),
    (&[5, 0, 0, 0], None),
    (&[6], None),
    (&[6, 0], None),
];

/// No statement stands below one of these.
const FLAT: &[Row] = &[
    (&[0], Some(100)),
    (&[0, 0], None),
    (&[1, 0], None),
    (&[2, 0], None),
    (&[3, 0], None),
    (&[4, 0], None),
    (&[5], Some(105)),
    (&[5, 0], None),
    (&[6], None),
];

fn expect_rows(rt: &impl Abort, alloc: Global, body: &Stmt, rows: &[Row]) -> Result<(), Fail> {
    for &(children, want) in rows {
        let path = Path {
            children: Items::from_slice(alloc, children)?,
        };
        let found = stmt_at(body, &path).map(|statement| statement.place.byte);
        assert!(rt; found == want, "{children:?} names {found:?}");
    }
    Ok(())
}

#[test]
fn paths_name_statements(rt: HostRuntime) -> Result<(), Fail> {
    let alloc = rt.alloc();
    let body = compound_of(alloc, nesting(alloc)?)?;
    expect_rows(&rt, alloc, &body, NESTING)?;
    let body = compound_of(alloc, flat(alloc)?)?;
    expect_rows(&rt, alloc, &body, FLAT)
}

/// `(NULL) + NULL`: parentheses are a node, and each operator is one.
fn sum(alloc: Global) -> Result<Expr, NoMemory>
    ensures { IfOk result (λ expression. expression_depth expression ≡ 3) }
{
    let left = Expr {
        place: Place::START,
        kind: ExprKind::Parenthesized(Boxed::new(alloc, null())?),
    };
    Ok(Expr {
        place: Place::START,
        kind: ExprKind::Binary {
            left: Boxed::new(alloc, left)?,
            operator: BinaryOperator::Add,
            right: Boxed::new(alloc, null())?,
        },
    })
}

/// `(int **) (NULL)`: each `*` is a node of the type.
fn cast(alloc: Global) -> Result<Expr, NoMemory>
    ensures { IfOk result (λ expression. expression_depth expression ≡ 4) }
{
    let target = TypeName {
        specifier: TypeSpecifier::Integer(IntegerType::Int),
        declarator: AbstractDeclarator {
            pointers: 2,
            lengths: Items::new(alloc),
        },
    };
    Ok(Expr {
        place: Place::START,
        kind: ExprKind::Cast {
            target: Boxed::new(alloc, target)?,
            operand: Boxed::new(alloc, null())?,
        },
    })
}

/// `{ (NULL) + NULL; }`: the body is the first node, its statement the second.
fn one_statement(alloc: Global) -> Result<Stmt, NoMemory>
    ensures { IfOk result (λ body. statement_depth body ≡ 5) }
{
    let mut statements = Items::new(alloc);
    statements.push(statement(alloc, 1, StmtKind::Expression(sum(alloc)?)))?;
    Ok(statement(alloc, 0, StmtKind::Compound(statements)))
}

fn is_built<T: Drop>(built: Result<T, NoMemory>) -> bool {
    built.is_ok()
}

/// The depths are proved: they are the contracts of the two functions.
#[test]
fn depths_count_nodes(rt: HostRuntime) {
    let alloc = rt.alloc();
    assert!(rt; is_built(cast(alloc)));
    assert!(rt; is_built(one_statement(alloc)));
}

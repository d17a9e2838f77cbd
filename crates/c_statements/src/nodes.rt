//! Nodes of statements, each with its depth.
ghost use Rattle.std.specs.Prelude.{◌≡◌, ◌+◌, []};
ghost use Rattle.c_syntax.specs.Depth.{expression_depth, declaration_depth, statement_depth, init_depth};
ghost use Rattle.c_syntax.specs.declared.stmt.StmtKind.TheVariants as kinds;
ghost use Rattle.c_grammar.specs.Depths.{kind_depth};
ghost use Rattle.c_grammar.specs.StatementReading.{stated};
ghost use Rattle.c_cursor.specs.Deep.{IsDeep, KeepsDeep};
ghost use Rattle.c_statements.specs.Parts.{labels_depth, statements_depth, optional_depth};

use c_cursor::{Deep, ParseRefusal, further};
use c_syntax::{Attribute, Declaration, Expr, ForInit, Label, Stmt, StmtKind};
use rc_text::Place;
use sqlite_items::{Boxed, Items};
use std::alloc::Global;

/// A statement behind its labels.
#[tactic(auto, using(crate::proofs::Depths::depths))]
pub(crate) fn stated(
    place: Place,
    labels: Deep<Items<Label>>,
    attributes: Items<Attribute>,
    kind: Deep<StmtKind>,
) -> Deep<Stmt>
    requires labels { IsDeep labels_depth labels }
    requires kind { IsDeep kind_depth kind }
    ensures tree { result.tree ≡ stated place labels.tree attributes kind.tree }
    ensures depth { IsDeep statement_depth result }
{
    Deep {
        depth: kind.depth.max(further(labels.depth, 1)),
        tree: Stmt {
            place,
            labels: labels.tree,
            attributes,
            kind: kind.tree,
        },
    }
}

/// A statement without labels.
pub(crate) fn unlabelled(
    alloc: Global,
    place: Place,
    attributes: Items<Attribute>,
    kind: Deep<StmtKind>,
) -> Deep<Stmt>
    requires { IsDeep kind_depth kind }
    ensures tree { result.tree ≡ stated place [] attributes kind.tree }
    ensures depth { IsDeep statement_depth result }
{
    let labels = Deep {
        tree: Items::new(alloc),
        depth: 0,
    };
    stated(place, labels, attributes, kind)
}

/// The statement in a box of its own, as the part of another.
pub(crate) fn boxed(alloc: Global, inner: Deep<Stmt>) -> Result<Deep<Boxed<Stmt>>, ParseRefusal>
    requires { IsDeep statement_depth inner }
    ensures { KeepsDeep statement_depth inner.tree result }
{
    Ok(Deep {
        depth: inner.depth,
        tree: Boxed::new(alloc, inner.tree)?,
    })
}

/// A node without parts.
pub(crate) fn leaf(tree: StmtKind) -> Deep<StmtKind>
    requires { kind_depth tree ≡ 1 }
    ensures tree { result.tree ≡ tree }
    ensures depth { IsDeep kind_depth result }
{
    Deep { tree, depth: 1 }
}

#[tactic(auto, using(crate::proofs::Depths::depths))]
pub(crate) fn compound(children: Deep<Items<Stmt>>) -> Deep<StmtKind>
    requires { IsDeep statements_depth children }
    ensures tree { result.tree ≡ kinds.Compound children.tree }
    ensures depth { IsDeep kind_depth result }
{
    Deep {
        depth: further(children.depth, 1),
        tree: StmtKind::Compound(children.tree),
    }
}

#[tactic(auto, using(crate::proofs::Depths::depths))]
pub(crate) fn declaration(inner: Deep<Declaration>) -> Deep<StmtKind>
    requires { IsDeep declaration_depth inner }
    ensures tree { result.tree ≡ kinds.Declaration inner.tree }
    ensures depth { IsDeep kind_depth result }
{
    Deep {
        depth: further(inner.depth, 1),
        tree: StmtKind::Declaration(inner.tree),
    }
}

#[tactic(auto, using(crate::proofs::Depths::depths))]
pub(crate) fn expression(inner: Deep<Boxed<Expr>>) -> Deep<StmtKind>
    requires { IsDeep expression_depth inner }
    ensures tree { result.tree ≡ kinds.Expression inner.tree }
    ensures depth { IsDeep kind_depth result }
{
    Deep {
        depth: further(inner.depth, 1),
        tree: StmtKind::Expression(inner.tree.into_inner()),
    }
}

#[tactic(auto, using(crate::proofs::Depths::depths))]
pub(crate) fn if_then(test: Deep<Boxed<Expr>>, then: Deep<Boxed<Stmt>>) -> Deep<StmtKind>
    requires test { IsDeep expression_depth test }
    requires then { IsDeep statement_depth then }
    ensures tree { result.tree ≡ kinds.If test.tree then.tree }
    ensures depth { IsDeep kind_depth result }
{
    Deep {
        depth: further(test.depth.max(then.depth), 1),
        tree: StmtKind::If {
            test: test.tree.into_inner(),
            then: then.tree,
        },
    }
}

#[tactic(auto, using(crate::proofs::Depths::depths))]
pub(crate) fn if_else(
    test: Deep<Boxed<Expr>>,
    then: Deep<Boxed<Stmt>>,
    otherwise: Deep<Boxed<Stmt>>,
) -> Deep<StmtKind>
    requires test { IsDeep expression_depth test }
    requires then { IsDeep statement_depth then }
    requires otherwise { IsDeep statement_depth otherwise }
    ensures tree { result.tree ≡ kinds.IfElse test.tree then.tree otherwise.tree }
    ensures depth { IsDeep kind_depth result }
{
    Deep {
        depth: further(test.depth.max(then.depth.max(otherwise.depth)), 1),
        tree: StmtKind::IfElse {
            test: test.tree.into_inner(),
            then: then.tree,
            otherwise: otherwise.tree,
        },
    }
}

#[tactic(auto, using(crate::proofs::Depths::depths))]
pub(crate) fn switch(value: Deep<Boxed<Expr>>, body: Deep<Boxed<Stmt>>) -> Deep<StmtKind>
    requires value { IsDeep expression_depth value }
    requires body { IsDeep statement_depth body }
    ensures tree { result.tree ≡ kinds.Switch value.tree body.tree }
    ensures depth { IsDeep kind_depth result }
{
    Deep {
        depth: further(value.depth.max(body.depth), 1),
        tree: StmtKind::Switch {
            value: value.tree.into_inner(),
            body: body.tree,
        },
    }
}

#[tactic(auto, using(crate::proofs::Depths::depths))]
pub(crate) fn while_loop(test: Deep<Boxed<Expr>>, body: Deep<Boxed<Stmt>>) -> Deep<StmtKind>
    requires test { IsDeep expression_depth test }
    requires body { IsDeep statement_depth body }
    ensures tree { result.tree ≡ kinds.While test.tree body.tree }
    ensures depth { IsDeep kind_depth result }
{
    Deep {
        depth: further(test.depth.max(body.depth), 1),
        tree: StmtKind::While {
            test: test.tree.into_inner(),
            body: body.tree,
        },
    }
}

#[tactic(auto, using(crate::proofs::Depths::depths))]
pub(crate) fn do_loop(body: Deep<Boxed<Stmt>>, test: Deep<Boxed<Expr>>) -> Deep<StmtKind>
    requires body { IsDeep statement_depth body }
    requires test { IsDeep expression_depth test }
    ensures tree { result.tree ≡ kinds.Do body.tree test.tree }
    ensures depth { IsDeep kind_depth result }
{
    Deep {
        depth: further(body.depth.max(test.depth), 1),
        tree: StmtKind::Do {
            body: body.tree,
            test: test.tree.into_inner(),
        },
    }
}

#[tactic(auto, using(crate::proofs::Depths::depths))]
pub(crate) fn for_loop(
    init: Deep<ForInit>,
    test: Deep<Option<Expr>>,
    step: Deep<Option<Expr>>,
    body: Deep<Boxed<Stmt>>,
) -> Deep<StmtKind>
    requires init { IsDeep init_depth init }
    requires test { IsDeep optional_depth test }
    requires step { IsDeep optional_depth step }
    requires body { IsDeep statement_depth body }
    ensures tree { result.tree ≡ kinds.For init.tree test.tree step.tree body.tree }
    ensures depth { IsDeep kind_depth result }
{
    let head = init.depth.max(test.depth);
    let depth = further(head.max(step.depth.max(body.depth)), 1);
    Deep {
        depth,
        tree: StmtKind::For {
            init: init.tree,
            test: test.tree,
            step: step.tree,
            body: body.tree,
        },
    }
}

#[tactic(auto, using(crate::proofs::Depths::depths))]
pub(crate) fn returned(value: Deep<Option<Expr>>) -> Deep<StmtKind>
    requires { IsDeep optional_depth value }
    ensures tree { result.tree ≡ kinds.Return value.tree }
    ensures depth { IsDeep kind_depth result }
{
    Deep {
        depth: further(value.depth, 1),
        tree: StmtKind::Return(value.tree),
    }
}

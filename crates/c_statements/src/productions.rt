//! Statements behind their labels and attributes, by their productions (C11 6.8.2 to 6.8.6). What a statement declares
//! stands in scope no more behind it.
ghost use Rattle.std.specs.Prelude.{◌≡◌};
ghost use Rattle.c_syntax.specs.Depth.{expression_depth, statement_depth};
ghost use Rattle.c_grammar.specs.Depths.{kind_depth};
ghost use Rattle.c_grammar.specs.StatementReading.{kind_at, statement, if_behind, switch_behind};
ghost use Rattle.c_grammar.specs.StatementReading.{while_behind, do_behind, for_behind, jump, return_behind};
ghost use Rattle.c_grammar.specs.StatementReading.{expression_kind, jump_kind, loop_kind, keyword_kind, kind_with};
ghost use Rattle.c_cursor.specs.Deep.{IsDeep, ReadsDeep};
ghost use Rattle.c_cursor.specs.Reads.{IsRefusal};
ghost use Rattle.c_expressions.specs.Parts.{reader};
ghost use Rattle.c_statements.specs.Nests.{Nests};
ghost use Rattle.c_statements.specs.Parts.{position_seen};
ghost use Rattle.c_statements.specs.Productions.{enclosed, compound_behind, perhaps_else};

use crate::heads::{begun, optional, tested};
use crate::nesting::Statements;
use crate::nodes;
use crate::position::Position;
use c_cursor::{COMMA_LEVEL, Cursor, Deep, ParseRefusal};
use c_expressions::expression;
use c_lexer::{Keyword, Punctuator};
use c_syntax::{Expr, Stmt, StmtKind};
use sqlite_items::Boxed;
use std::alloc::Global;

impl<
    'g,
    F: Fn(Global, &mut Cursor<'_>, usize, Position) -> Result<Deep<StmtKind>, ParseRefusal>,
> Statements<'g, F> {
    /// A statement, and the end of its scope.
    #[tactic(auto, unfolding(crate::specs::Productions::enclosed))]
    fn enclosed(
        &self,
        cursor: &mut Cursor<'_>,
        position: Position,
    ) -> Result<Deep<Boxed<Stmt>>, ParseRefusal>
        requires { Nests self.now.room (F.pre self.now.read.now) (F.post self.now.read.now) }
        ensures { ReadsDeep statement_depth (enclosed (statement (reader 200) (kind_at (reader 200) self.now.room)
            (position_seen position)) cursor.old) result cursor.new }
    {
        let scope = cursor.scope();
        let found = self.statement(cursor, position)?;
        cursor.leave(scope);
        Ok(found)
    }

    /// A compound behind its opening brace.
    #[tactic(auto, unfolding(crate::specs::Productions::compound_behind))]
    fn compound(
        &self,
        cursor: &mut Cursor<'_>,
        position: Position,
    ) -> Result<Deep<StmtKind>, ParseRefusal>
        requires { Nests self.now.room (F.pre self.now.read.now) (F.post self.now.read.now) }
        ensures { ReadsDeep kind_depth (compound_behind (reader 200) (kind_at (reader 200) self.now.room)
            (position_seen position) cursor.old) result cursor.new }
    {
        let scope = cursor.scope();
        let children = self.children(cursor, position)?;
        cursor.leave(scope);
        Ok(nodes::compound(children))
    }

    /// An `if` with its `else`, where that stands next.
    #[tactic(auto, unfolding(crate::specs::Productions::perhaps_else))]
    fn perhaps_else(
        &self,
        cursor: &mut Cursor<'_>,
        position: Position,
        test: Deep<Boxed<Expr>>,
        then: Deep<Boxed<Stmt>>,
    ) -> Result<Deep<StmtKind>, ParseRefusal>
        requires nests { Nests self.now.room (F.pre self.now.read.now) (F.post self.now.read.now) }
        requires test { IsDeep expression_depth test }
        requires then { IsDeep statement_depth then }
        ensures { ReadsDeep kind_depth (perhaps_else (reader 200) (kind_at (reader 200) self.now.room)
            (position_seen position) test.tree then.tree cursor.old) result cursor.new }
    {
        if cursor.keyword(Keyword::Else) {
            let otherwise = self.statement(cursor, position)?;
            Ok(nodes::if_else(test, then, otherwise))
        } else {
            Ok(nodes::if_then(test, then))
        }
    }

    /// An `if` behind its keyword.
    fn if_behind(
        &self,
        cursor: &mut Cursor<'_>,
        position: Position,
    ) -> Result<Deep<StmtKind>, ParseRefusal>
        requires { Nests self.now.room (F.pre self.now.read.now) (F.post self.now.read.now) }
        ensures { ReadsDeep kind_depth (if_behind (reader 200) (kind_at (reader 200) self.now.room)
            (position_seen position) cursor.old cursor.old) result cursor.new }
    {
        let scope = cursor.scope();
        let test = tested(self.alloc, cursor)?;
        let then = self.enclosed(cursor, position)?;
        let found = self.perhaps_else(cursor, position, test, then)?;
        cursor.leave(scope);
        Ok(found)
    }

    /// A `switch` behind its keyword.
    #[tactic(auto, unfolding(c_grammar::specs::StatementReading::switch_behind))]
    fn switch_behind(
        &self,
        cursor: &mut Cursor<'_>,
        position: Position,
    ) -> Result<Deep<StmtKind>, ParseRefusal>
        requires { Nests self.now.room (F.pre self.now.read.now) (F.post self.now.read.now) }
        ensures { ReadsDeep kind_depth (switch_behind (reader 200) (kind_at (reader 200) self.now.room)
            (position_seen position) cursor.old cursor.old) result cursor.new }
    {
        let scope = cursor.scope();
        let value = tested(self.alloc, cursor)?;
        let body = self.switch_body(cursor, position.in_switch())?;
        cursor.leave(scope);
        Ok(nodes::switch(value, body))
    }

    /// A `while` behind its keyword.
    #[tactic(auto, unfolding(c_grammar::specs::StatementReading::while_behind))]
    fn while_behind(&self, cursor: &mut Cursor<'_>) -> Result<Deep<StmtKind>, ParseRefusal>
        requires { Nests self.now.room (F.pre self.now.read.now) (F.post self.now.read.now) }
        ensures { ReadsDeep kind_depth (while_behind (reader 200) (kind_at (reader 200) self.now.room)
            cursor.old cursor.old) result cursor.new }
    {
        let scope = cursor.scope();
        let test = tested(self.alloc, cursor)?;
        let body = self.statement(cursor, Position::in_loop())?;
        cursor.leave(scope);
        Ok(nodes::while_loop(test, body))
    }

    /// A `do` behind its keyword.
    fn do_behind(&self, cursor: &mut Cursor<'_>) -> Result<Deep<StmtKind>, ParseRefusal>
        requires { Nests self.now.room (F.pre self.now.read.now) (F.post self.now.read.now) }
        ensures { ReadsDeep kind_depth (do_behind (reader 200) (kind_at (reader 200) self.now.room)
            cursor.old cursor.old) result cursor.new }
    {
        let scope = cursor.scope();
        let body = self.enclosed(cursor, Position::in_loop())?;
        if !cursor.keyword(Keyword::While) {
            return Err(cursor.unexpected());
        }
        let test = tested(self.alloc, cursor)?;
        cursor.expect(Punctuator::Semicolon)?;
        cursor.leave(scope);
        Ok(nodes::do_loop(body, test))
    }

    /// A `for` behind its keyword.
    #[tactic(auto, unfolding(c_grammar::specs::StatementReading::for_behind))]
    fn for_behind(&self, cursor: &mut Cursor<'_>) -> Result<Deep<StmtKind>, ParseRefusal>
        requires { Nests self.now.room (F.pre self.now.read.now) (F.post self.now.read.now) }
        ensures { ReadsDeep kind_depth (for_behind (reader 200) (kind_at (reader 200) self.now.room)
            cursor.old cursor.old) result cursor.new }
    {
        let scope = cursor.scope();
        cursor.expect(Punctuator::OpenParenthesis)?;
        let init = begun(self.alloc, cursor)?;
        let test = optional(self.alloc, cursor, Punctuator::Semicolon)?;
        cursor.expect(Punctuator::Semicolon)?;
        let step = optional(self.alloc, cursor, Punctuator::CloseParenthesis)?;
        cursor.expect(Punctuator::CloseParenthesis)?;
        let body = self.statement(cursor, Position::in_loop())?;
        cursor.leave(scope);
        Ok(nodes::for_loop(init, test, step, body))
    }

    /// The semicolon behind `break` or `continue`; the refusal is the answer where that may not stand.
    #[tactic(auto, unfolding(c_grammar::specs::StatementReading::jump))]
    fn jump(
        &self,
        cursor: &mut Cursor<'_>,
        allowed: bool,
        kind: StmtKind,
        misplaced: ParseRefusal,
    ) -> Result<Deep<StmtKind>, ParseRefusal>
        requires kind { kind_depth kind ≡ 1 }
        requires misplaced { IsRefusal misplaced }
        ensures { ReadsDeep kind_depth (jump (reader 200) (kind_at (reader 200) self.now.room)
            allowed kind cursor.old) result cursor.new }
    {
        if !allowed {
            return Err(misplaced);
        }
        cursor.expect(Punctuator::Semicolon)?;
        Ok(nodes::leaf(kind))
    }

    /// A `return` behind its keyword.
    #[tactic(auto, unfolding(c_grammar::specs::StatementReading::return_behind))]
    fn return_behind(&self, cursor: &mut Cursor<'_>) -> Result<Deep<StmtKind>, ParseRefusal>
        ensures { ReadsDeep kind_depth (return_behind (reader 200) (kind_at (reader 200) self.now.room)
            cursor.old) result cursor.new }
    {
        let value = optional(self.alloc, cursor, Punctuator::Semicolon)?;
        cursor.expect(Punctuator::Semicolon)?;
        Ok(nodes::returned(value))
    }

    /// An expression and the semicolon.
    #[tactic(auto, unfolding(c_grammar::specs::StatementReading::expression_kind))]
    fn expression_kind(&self, cursor: &mut Cursor<'_>) -> Result<Deep<StmtKind>, ParseRefusal>
        ensures { ReadsDeep kind_depth (expression_kind (reader 200) (kind_at (reader 200) self.now.room)
            cursor.old) result cursor.new }
    {
        let found = expression(self.alloc, cursor, COMMA_LEVEL)?;
        cursor.expect(Punctuator::Semicolon)?;
        Ok(nodes::expression(found))
    }

    /// A jump, or an expression.
    #[tactic(auto, using(crate::proofs::Depths::depths), unfolding(c_grammar::specs::StatementReading::jump_kind))]
    fn jump_kind(
        &self,
        cursor: &mut Cursor<'_>,
        position: Position,
    ) -> Result<Deep<StmtKind>, ParseRefusal>
        ensures { ReadsDeep kind_depth (jump_kind (reader 200) (kind_at (reader 200) self.now.room)
            (position_seen position) cursor.old) result cursor.new }
    {
        let misplaced = cursor.unexpected();
        if cursor.keyword(Keyword::Continue) {
            self.jump(cursor, position.continues, StmtKind::Continue, misplaced)
        } else if cursor.keyword(Keyword::Break) {
            self.jump(cursor, position.breaks, StmtKind::Break, misplaced)
        } else if cursor.keyword(Keyword::Return) {
            self.return_behind(cursor)
        } else {
            self.expression_kind(cursor)
        }
    }

    /// A loop, or what no keyword of a loop begins.
    #[tactic(auto, using(crate::proofs::Scopes::same), unfolding(c_grammar::specs::StatementReading::loop_kind))]
    fn loop_kind(
        &self,
        cursor: &mut Cursor<'_>,
        position: Position,
    ) -> Result<Deep<StmtKind>, ParseRefusal>
        requires { Nests self.now.room (F.pre self.now.read.now) (F.post self.now.read.now) }
        ensures { ReadsDeep kind_depth (loop_kind (reader 200) (kind_at (reader 200) self.now.room)
            (position_seen position) cursor.old) result cursor.new }
    {
        if cursor.keyword(Keyword::While) {
            self.while_behind(cursor)
        } else if cursor.keyword(Keyword::Do) {
            self.do_behind(cursor)
        } else if cursor.keyword(Keyword::For) {
            self.for_behind(cursor)
        } else {
            self.jump_kind(cursor, position)
        }
    }

    /// What a keyword begins, or an expression.
    #[tactic(auto, using(crate::proofs::Scopes::same), unfolding(c_grammar::specs::StatementReading::keyword_kind))]
    fn keyword_kind(
        &self,
        cursor: &mut Cursor<'_>,
        position: Position,
    ) -> Result<Deep<StmtKind>, ParseRefusal>
        requires { Nests self.now.room (F.pre self.now.read.now) (F.post self.now.read.now) }
        ensures { ReadsDeep kind_depth (keyword_kind (reader 200) (kind_at (reader 200) self.now.room)
            (position_seen position) cursor.old) result cursor.new }
    {
        if cursor.keyword(Keyword::If) {
            self.if_behind(cursor, position)
        } else if cursor.keyword(Keyword::Switch) {
            self.switch_behind(cursor, position)
        } else {
            self.loop_kind(cursor, position)
        }
    }

    /// A statement behind its labels and attributes.
    #[tactic(auto, using(crate::proofs::Scopes::same), unfolding(c_grammar::specs::StatementReading::kind_with))]
    fn kind(
        &self,
        cursor: &mut Cursor<'_>,
        position: Position,
    ) -> Result<Deep<StmtKind>, ParseRefusal>
        requires { Nests self.now.room (F.pre self.now.read.now) (F.post self.now.read.now) }
        ensures { ReadsDeep kind_depth (kind_with (reader 200) (kind_at (reader 200) self.now.room)
            (position_seen position) cursor.old) result cursor.new }
    {
        if cursor.mark(Punctuator::OpenBrace) {
            self.compound(cursor, position)
        } else if cursor.mark(Punctuator::Semicolon) {
            Ok(nodes::leaf(StmtKind::Empty))
        } else {
            self.keyword_kind(cursor, position)
        }
    }
}

/// A statement behind its labels and attributes, in which so many may nest.
#[tactic(auto, unfolding(c_grammar::specs::StatementReading::kind_at))]
pub(crate) fn nested_kind(
    alloc: Global,
    cursor: &mut Cursor<'_>,
    room: usize,
    position: Position,
) -> Result<Deep<StmtKind>, ParseRefusal>
    ensures { ReadsDeep kind_depth (kind_at (reader 200) room (position_seen position) cursor.old) result cursor.new }
{
    if room == 0 {
        return Err(ParseRefusal::Depth);
    }
    Statements {
        alloc,
        room: room - 1,
        read: &nested_kind,
    }
    .kind(cursor, position)
}

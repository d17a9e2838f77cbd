//! Statements that stand in others, with their labels and attributes.
ghost use Rattle.std.specs.Prelude.{[]};
ghost use Rattle.c_syntax.specs.Depth.{statement_depth};
ghost use Rattle.c_grammar.specs.Reading.{turns};
ghost use Rattle.c_grammar.specs.StatementReading.{kind_at, stated_behind, statement, declared_behind, child};
ghost use Rattle.c_grammar.specs.StatementReading.{children_from, labelled, case_child, cases_from, switch_body};
ghost use Rattle.c_cursor.specs.Deep.{IsDeep, ReadsDeep};
ghost use Rattle.c_expressions.specs.Parts.{reader};
ghost use Rattle.c_statements.specs.Nests.{Nests};
ghost use Rattle.c_statements.specs.Parts.{labels_depth, statements_depth, position_seen};

use crate::labels::{begins_label, labels};
use crate::nesting::Statements;
use crate::nodes;
use crate::position::Position;
use c_cursor::{Cursor, Deep, ParseRefusal, attributes};
use c_declarations::local_declaration;
use c_lexer::Punctuator;
use c_syntax::{Attribute, Label, Stmt, StmtKind};
use sqlite_items::{Boxed, Items};
use std::alloc::Global;

impl<
    'g,
    F: Fn(Global, &mut Cursor<'_>, usize, Position) -> Result<Deep<StmtKind>, ParseRefusal>,
> Statements<'g, F> {
    /// A statement behind its labels and attributes.
    #[tactic(auto, unfolding(c_grammar::specs::StatementReading::stated_behind))]
    fn stated_behind(
        &self,
        cursor: &mut Cursor<'_>,
        position: Position,
        labels: Deep<Items<Label>>,
        attributes: Items<Attribute>,
    ) -> Result<Deep<Stmt>, ParseRefusal>
        requires nests { Nests self.now.room (F.pre self.now.read.now) (F.post self.now.read.now) }
        requires labels { IsDeep labels_depth labels }
        ensures { ReadsDeep statement_depth (stated_behind (reader 200) (kind_at (reader 200) self.now.room)
            (position_seen position) labels.tree attributes cursor.old) result cursor.new }
    {
        match cursor.next_place() {
            Some(place) => {
                let kind = self.nested(cursor, position)?;
                Ok(nodes::stated(place, labels, attributes, kind))
            }
            None => Err(cursor.unexpected()),
        }
    }

    /// The same of one without labels.
    fn unlabelled_behind(
        &self,
        cursor: &mut Cursor<'_>,
        position: Position,
        attributes: Items<Attribute>,
    ) -> Result<Deep<Stmt>, ParseRefusal>
        requires { Nests self.now.room (F.pre self.now.read.now) (F.post self.now.read.now) }
        ensures { ReadsDeep statement_depth (stated_behind (reader 200) (kind_at (reader 200) self.now.room)
            (position_seen position) [] attributes cursor.old) result cursor.new }
    {
        let none = Deep {
            tree: Items::new(self.alloc),
            depth: 0,
        };
        self.stated_behind(cursor, position, none, attributes)
    }

    /// A statement without labels, as the body of another.
    #[tactic(auto, unfolding(c_grammar::specs::StatementReading::statement))]
    pub(crate) fn statement(
        &self,
        cursor: &mut Cursor<'_>,
        position: Position,
    ) -> Result<Deep<Boxed<Stmt>>, ParseRefusal>
        requires { Nests self.now.room (F.pre self.now.read.now) (F.post self.now.read.now) }
        ensures { ReadsDeep statement_depth (statement (reader 200) (kind_at (reader 200) self.now.room)
            (position_seen position) cursor.old) result cursor.new }
    {
        let list = attributes(self.alloc, cursor)?;
        let found = self.unlabelled_behind(cursor, position, list)?;
        nodes::boxed(self.alloc, found)
    }

    /// A declaration among statements, behind its attributes.
    #[tactic(auto, unfolding(c_grammar::specs::StatementReading::declared_behind))]
    fn declared_behind(
        &self,
        cursor: &mut Cursor<'_>,
        attributes: Items<Attribute>,
    ) -> Result<Deep<Stmt>, ParseRefusal>
        ensures { ReadsDeep statement_depth (declared_behind (reader 200) (kind_at (reader 200) self.now.room)
            attributes cursor.old) result cursor.new }
    {
        match cursor.next_place() {
            Some(place) => {
                let kind = nodes::declaration(local_declaration(self.alloc, cursor)?);
                Ok(nodes::unlabelled(self.alloc, place, attributes, kind))
            }
            None => Err(cursor.unexpected()),
        }
    }

    /// A child of a compound without labels: a declaration or a statement.
    #[tactic(auto, unfolding(c_grammar::specs::StatementReading::child))]
    fn child(&self, cursor: &mut Cursor<'_>, position: Position) -> Result<Deep<Stmt>, ParseRefusal>
        requires { Nests self.now.room (F.pre self.now.read.now) (F.post self.now.read.now) }
        ensures { ReadsDeep statement_depth (child (reader 200) (kind_at (reader 200) self.now.room)
            (position_seen position) cursor.old) result cursor.new }
    {
        let list = attributes(self.alloc, cursor)?;
        if cursor.begins_type() {
            self.declared_behind(cursor, list)
        } else {
            self.unlabelled_behind(cursor, position, list)
        }
    }

    /// A compound's children and the closing brace.
    pub(crate) fn children(
        &self,
        cursor: &mut Cursor<'_>,
        position: Position,
    ) -> Result<Deep<Items<Stmt>>, ParseRefusal>
        requires { Nests self.now.room (F.pre self.now.read.now) (F.post self.now.read.now) }
        ensures { ReadsDeep statements_depth (children_from (reader 200) (kind_at (reader 200) self.now.room)
            (position_seen position) (turns cursor.old) cursor.old) result cursor.new }
    {
        let mut tree = Items::new(self.alloc);
        let mut depth = 0;
        for _turn in 0..cursor.turns() {
            if cursor.mark(Punctuator::CloseBrace) {
                return Ok(Deep { tree, depth });
            }
            let one = self.child(cursor, position)?;
            depth = one.depth.max(depth);
            tree.push(one.tree)?;
        }
        Err(cursor.unexpected())
    }

    /// A labelled child of a switch's compound.
    #[tactic(auto, unfolding(c_grammar::specs::StatementReading::labelled))]
    fn labelled(
        &self,
        cursor: &mut Cursor<'_>,
        position: Position,
    ) -> Result<Deep<Stmt>, ParseRefusal>
        requires { Nests self.now.room (F.pre self.now.read.now) (F.post self.now.read.now) }
        ensures { ReadsDeep statement_depth (labelled (reader 200) (kind_at (reader 200) self.now.room)
            (position_seen position) cursor.old) result cursor.new }
    {
        let labels = labels(self.alloc, cursor)?;
        let list = attributes(self.alloc, cursor)?;
        self.stated_behind(cursor, position, labels, list)
    }

    /// A child of a switch's compound.
    #[tactic(auto, unfolding(c_grammar::specs::StatementReading::case_child))]
    fn case_child(
        &self,
        cursor: &mut Cursor<'_>,
        position: Position,
    ) -> Result<Deep<Stmt>, ParseRefusal>
        requires { Nests self.now.room (F.pre self.now.read.now) (F.post self.now.read.now) }
        ensures { ReadsDeep statement_depth (case_child (reader 200) (kind_at (reader 200) self.now.room)
            (position_seen position) cursor.old) result cursor.new }
    {
        if begins_label(cursor) {
            self.labelled(cursor, position)
        } else {
            self.child(cursor, position)
        }
    }

    /// The children of a switch's compound and the closing brace.
    fn cases(
        &self,
        cursor: &mut Cursor<'_>,
        position: Position,
    ) -> Result<Deep<Items<Stmt>>, ParseRefusal>
        requires { Nests self.now.room (F.pre self.now.read.now) (F.post self.now.read.now) }
        ensures { ReadsDeep statements_depth (cases_from (reader 200) (kind_at (reader 200) self.now.room)
            (position_seen position) (turns cursor.old) cursor.old) result cursor.new }
    {
        let mut tree = Items::new(self.alloc);
        let mut depth = 0;
        for _turn in 0..cursor.turns() {
            if cursor.mark(Punctuator::CloseBrace) {
                return Ok(Deep { tree, depth });
            }
            let one = self.case_child(cursor, position)?;
            depth = one.depth.max(depth);
            tree.push(one.tree)?;
        }
        Err(cursor.unexpected())
    }

    /// The body of a switch: a compound.
    #[tactic(auto, unfolding(c_grammar::specs::StatementReading::switch_body))]
    pub(crate) fn switch_body(
        &self,
        cursor: &mut Cursor<'_>,
        position: Position,
    ) -> Result<Deep<Boxed<Stmt>>, ParseRefusal>
        requires { Nests self.now.room (F.pre self.now.read.now) (F.post self.now.read.now) }
        ensures { ReadsDeep statement_depth (switch_body (reader 200) (kind_at (reader 200) self.now.room)
            (position_seen position) cursor.old) result cursor.new }
    {
        let list = attributes(self.alloc, cursor)?;
        match cursor.next_place() {
            Some(place) => {
                cursor.expect(Punctuator::OpenBrace)?;
                let kind = nodes::compound(self.cases(cursor, position)?);
                nodes::boxed(self.alloc, nodes::unlabelled(self.alloc, place, list, kind))
            }
            None => Err(cursor.unexpected()),
        }
    }
}

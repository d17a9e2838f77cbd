//! Trees in print, in a short form: what stands in one another stands in brackets.
use c_lexer::HeaderType;
use c_syntax::{
    Attribute, Declaration, DeclarationKind, Declarator, Expr, ExprKind, ForInit,
    FunctionDeclarator, InitDeclarator, IntegerType, Item, ItemKind, Label, Parameter,
    ParameterDeclarator, RecordKind, Stmt, StmtKind, TypeSpecifier, Unit,
};
use rc_text::{Bytes, NoMemory};

/// Prints a file.
pub(crate) fn show(text: &mut Bytes, unit: &Unit) -> Result<(), NoMemory> {
    for item in unit.items.as_slice() {
        show_item(text, item)?;
    }
    Ok(())
}

fn show_item(text: &mut Bytes, item: &Item) -> Result<(), NoMemory> {
    show_attributes(text, item.attributes.as_slice())?;
    match &item.kind {
        ItemKind::Function(function) => {
            text.append(b"define ")?;
            show_type(text, &function.specifier, 8)?;
            text.append(b" ")?;
            show_function(text, &function.declarator)?;
            show_stmt(text, &function.body, 8)
        }
        ItemKind::Declaration(declaration) => show_declaration(text, declaration),
    }
}

fn show_attributes(text: &mut Bytes, attributes: &[Attribute]) -> Result<(), NoMemory> {
    for attribute in attributes {
        text.append(b"@")?;
        text.append(attribute.name.as_slice())?;
        for part in attribute.texts.as_slice() {
            text.append(b"'")?;
            text.append(part.text.as_slice())?;
        }
        text.append(b" ")?;
    }
    Ok(())
}

fn show_declaration(text: &mut Bytes, declaration: &Declaration) -> Result<(), NoMemory> {
    match &declaration.kind {
        DeclarationKind::TypeOnly => show_type(text, &declaration.specifier, 8)?,
        DeclarationKind::Typedef(declarators) => {
            text.append(b"typedef ")?;
            show_type(text, &declaration.specifier, 8)?;
            for declarator in declarators.as_slice() {
                text.append(b" ")?;
                show_declarator(text, declarator)?;
            }
        }
        DeclarationKind::Names(names) => {
            show_type(text, &declaration.specifier, 8)?;
            for name in names.as_slice() {
                text.append(b" ")?;
                show_name(text, name)?;
            }
        }
    }
    text.append(b";")
}

fn show_name(text: &mut Bytes, name: &InitDeclarator) -> Result<(), NoMemory> {
    match name {
        InitDeclarator::Object {
            declarator,
            initializer,
        } => {
            show_declarator(text, declarator)?;
            if let Some(value) = initializer {
                text.append(b"=")?;
                show_expression(text, value, 8)?;
            }
            Ok(())
        }
        InitDeclarator::Function(function) => show_function(text, function),
    }
}

fn show_declarator(text: &mut Bytes, declarator: &Declarator) -> Result<(), NoMemory> {
    show_stars(text, declarator.pointers)?;
    text.append(declarator.name.text.as_slice())?;
    show_lengths(text, declarator.lengths.as_slice())
}

fn show_stars(text: &mut Bytes, count: usize) -> Result<(), NoMemory> {
    for _star in 0..count {
        text.append(b"*")?;
    }
    Ok(())
}

fn show_lengths(text: &mut Bytes, lengths: &[Expr]) -> Result<(), NoMemory> {
    for length in lengths {
        text.append(b"[")?;
        show_expression(text, length, 8)?;
        text.append(b"]")?;
    }
    Ok(())
}

fn show_function(text: &mut Bytes, function: &FunctionDeclarator) -> Result<(), NoMemory> {
    show_stars(text, function.pointers)?;
    text.append(function.name.text.as_slice())?;
    text.append(b"(")?;
    for parameter in function.parameters.as_slice() {
        show_parameter(text, parameter)?;
    }
    text.append(b")")
}

fn show_parameter(text: &mut Bytes, parameter: &Parameter) -> Result<(), NoMemory> {
    show_type(text, &parameter.specifier, 8)?;
    text.append(b" ")?;
    match &parameter.declarator {
        ParameterDeclarator::Named(declarator) => show_declarator(text, declarator)?,
        ParameterDeclarator::Unnamed(parts) => {
            show_stars(text, parts.pointers)?;
            show_lengths(text, parts.lengths.as_slice())?;
        }
    }
    text.append(b",")
}

fn show_type(text: &mut Bytes, specifier: &TypeSpecifier, levels: u8) -> Result<(), NoMemory> {
    if levels == 0 {
        return text.append(b"..");
    }
    match specifier {
        TypeSpecifier::Void => text.append(b"void"),
        TypeSpecifier::Bool => text.append(b"bool"),
        TypeSpecifier::Integer(named) => text.append(integer(*named)),
        TypeSpecifier::Header(HeaderType::Size) => text.append(b"header size_t"),
        TypeSpecifier::Header(_) => text.append(b"header"),
        TypeSpecifier::Typedef(name) => {
            text.append(b"named ")?;
            text.append(name.text.as_slice())
        }
        TypeSpecifier::Record {
            kind,
            attributes,
            tag,
        } => {
            text.append(record(*kind))?;
            show_attributes(text, attributes.as_slice())?;
            text.append(tag.text.as_slice())
        }
        TypeSpecifier::RecordDefinition(definition) => {
            text.append(record(definition.kind))?;
            show_attributes(text, definition.attributes.as_slice())?;
            text.append(definition.tag.text.as_slice())?;
            text.append(b"{")?;
            for members in definition.members.as_slice() {
                show_attributes(text, members.attributes.as_slice())?;
                show_type(text, &members.specifier, levels - 1)?;
                for declarator in members.declarators.as_slice() {
                    text.append(b" ")?;
                    show_declarator(text, declarator)?;
                }
                text.append(b";")?;
            }
            text.append(b"}")
        }
        TypeSpecifier::Enum { attributes, tag } => {
            text.append(b"enum ")?;
            show_attributes(text, attributes.as_slice())?;
            text.append(tag.text.as_slice())
        }
        TypeSpecifier::EnumDefinition(definition) => {
            text.append(b"enum ")?;
            show_attributes(text, definition.attributes.as_slice())?;
            if let Some(tag) = &definition.tag {
                text.append(tag.text.as_slice())?;
            }
            text.append(b"{")?;
            for one in definition.enumerators.as_slice() {
                text.append(one.name.text.as_slice())?;
                if let Some(value) = &one.value {
                    text.append(b"=")?;
                    show_expression(text, value, 8)?;
                }
                text.append(b",")?;
            }
            text.append(b"}")
        }
    }
}

fn record(kind: RecordKind) -> &'static [u8] {
    match kind {
        RecordKind::Struct => b"struct ",
        RecordKind::Union => b"union ",
    }
}

fn integer(named: IntegerType) -> &'static [u8] {
    match named {
        IntegerType::Char => b"char",
        IntegerType::SignedChar => b"schar",
        IntegerType::UnsignedChar => b"uchar",
        IntegerType::Short => b"short",
        IntegerType::UnsignedShort => b"ushort",
        IntegerType::Int => b"int",
        IntegerType::UnsignedInt => b"uint",
        IntegerType::Long => b"long",
        IntegerType::UnsignedLong => b"ulong",
        IntegerType::LongLong => b"llong",
        IntegerType::UnsignedLongLong => b"ullong",
    }
}

/// Prints so many levels of a statement.
#[cycle(printing)]
fn show_stmt(text: &mut Bytes, statement: &Stmt, levels: u8) -> Result<(), NoMemory> {
    if levels == 0 {
        return text.append(b"..");
    }
    for label in statement.labels.as_slice() {
        match label {
            Label::Case { value, .. } => {
                text.append(b"case ")?;
                show_expression(text, value, 8)?;
                text.append(b":")?;
            }
            Label::Default { .. } => text.append(b"default:")?,
        }
    }
    show_attributes(text, statement.attributes.as_slice())?;
    show_kind(text, &statement.kind, levels - 1)
}

#[cycle(printing)]
fn show_kind(text: &mut Bytes, kind: &StmtKind, levels: u8) -> Result<(), NoMemory> {
    match kind {
        StmtKind::Compound(statements) => {
            text.append(b"{")?;
            for statement in statements.as_slice() {
                show_stmt(text, statement, levels)?;
            }
            text.append(b"}")
        }
        StmtKind::Declaration(declaration) => show_declaration(text, declaration),
        StmtKind::Expression(expression) => {
            show_expression(text, expression, 8)?;
            text.append(b";")
        }
        StmtKind::Empty => text.append(b";"),
        StmtKind::If { test, then } => {
            headed(text, b"if ", test)?;
            show_stmt(text, then.get(), levels)
        }
        StmtKind::IfElse {
            test,
            then,
            otherwise,
        } => {
            headed(text, b"if ", test)?;
            show_stmt(text, then.get(), levels)?;
            text.append(b"else ")?;
            show_stmt(text, otherwise.get(), levels)
        }
        StmtKind::Switch { value, body } => {
            headed(text, b"switch ", value)?;
            show_stmt(text, body.get(), levels)
        }
        StmtKind::While { test, body } => {
            headed(text, b"while ", test)?;
            show_stmt(text, body.get(), levels)
        }
        StmtKind::Do { body, test } => {
            text.append(b"do ")?;
            show_stmt(text, body.get(), levels)?;
            headed(text, b"until not ", test)
        }
        StmtKind::For {
            init,
            test,
            step,
            body,
        } => {
            text.append(b"for(")?;
            show_init(text, init)?;
            text.append(b"|")?;
            optional(text, test)?;
            text.append(b"|")?;
            optional(text, step)?;
            text.append(b")")?;
            show_stmt(text, body.get(), levels)
        }
        StmtKind::Continue => text.append(b"continue;"),
        StmtKind::Break => text.append(b"break;"),
        StmtKind::Return(value) => {
            text.append(b"return ")?;
            optional(text, value)?;
            text.append(b";")
        }
    }
}

fn headed(text: &mut Bytes, word: &[u8], test: &Expr) -> Result<(), NoMemory> {
    text.append(word)?;
    show_expression(text, test, 8)?;
    text.append(b" ")
}

fn optional(text: &mut Bytes, expression: &Option<Expr>) -> Result<(), NoMemory> {
    match expression {
        Some(expression) => show_expression(text, expression, 8),
        None => Ok(()),
    }
}

fn show_init(text: &mut Bytes, init: &ForInit) -> Result<(), NoMemory> {
    match init {
        ForInit::Nothing => Ok(()),
        ForInit::Expression(expression) => show_expression(text, expression, 8),
        ForInit::Declaration {
            attributes,
            declaration,
            ..
        } => {
            show_attributes(text, attributes.as_slice())?;
            show_declaration(text, declaration)
        }
    }
}

/// Prints so many levels of an expression, as far as declarations and statements are told by it.
fn show_expression(text: &mut Bytes, expression: &Expr, levels: u8) -> Result<(), NoMemory> {
    if levels == 0 {
        return text.append(b"..");
    }
    match &expression.kind {
        ExprKind::Name(name) => text.append(name.as_slice()),
        ExprKind::Integer(_) => text.append(b"1"),
        ExprKind::NullPointer => text.append(b"NULL"),
        ExprKind::Parenthesized(inner) => {
            text.append(b"(")?;
            show_expression(text, inner.get(), levels - 1)?;
            text.append(b")")
        }
        ExprKind::Call { function, .. } => {
            text.append(function.as_slice())?;
            text.append(b"()")
        }
        ExprKind::Unary { operand, .. } => {
            text.append(b"unary ")?;
            show_expression(text, operand.get(), levels - 1)
        }
        ExprKind::Binary { left, right, .. } => {
            text.append(b"<")?;
            show_expression(text, left.get(), levels - 1)?;
            text.append(b" ")?;
            show_expression(text, right.get(), levels - 1)?;
            text.append(b">")
        }
        ExprKind::Assignment { target, value, .. } => {
            show_expression(text, target.get(), levels - 1)?;
            text.append(b"=")?;
            show_expression(text, value.get(), levels - 1)
        }
        ExprKind::Cast { operand, .. } => {
            text.append(b"cast ")?;
            show_expression(text, operand.get(), levels - 1)
        }
        ExprKind::SizeOfType(_) => text.append(b"sizeof type"),
        ExprKind::SizeOfExpr(_) => text.append(b"sizeof expression"),
        _ => text.append(b"other"),
    }
}

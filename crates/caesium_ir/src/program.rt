ghost use Rattle.std.specs.Prelude.{◌≡◌, IsTrue};
ghost use Rattle.std.specs.Option.{option_copied};
ghost use Rattle.caesium_ir.specs.Function.{function_named};
ghost use Rattle.caesium_ir.specs.Program.{names_of};
ghost use Rattle.caesium_ir.specs.Names.{are_distinct};

use crate::function::Function;
use crate::reference::Reference;
use layouts::Table;
use sqlite_items::Items;

/// A program: the structs and unions that its layouts name, and its functions in order.
#[derive(Debug, Drop)]
pub struct Program {
    pub table: Table,
    pub functions: Items<Function>,
}

impl Program {
    /// The function of the name, found at once where it has the reference's number.
    pub fn function(&self, name: &Reference) -> Option<&Function>
        requires { IsTrue (are_distinct (names_of self.now)) }
        ensures { option_copied result ≡ function_named self.now.functions name.now }
    {
        match self.functions.get(name.number()) {
            Some(function) if function.name.as_slice() == name.name() => Some(function),
            _ => first_named(self.functions.as_slice(), name.name()),
        }
    }
}

fn first_named<'a>(functions: &'a [Function], name: &[u8]) -> Option<&'a Function>
    ensures { option_copied result ≡ function_named functions.now name.now }
{
    for function in functions {
        if function.name.as_slice() == name {
            return Some(function);
        }
    }
    None
}

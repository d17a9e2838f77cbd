ghost use Rattle.std.specs.Prelude.{◌≡◌, IsTrue, slice_get, Some};
ghost use Rattle.std.specs.Option.{option_copied};
ghost use Rattle.caesium_ir.specs.Block.{block_labelled};
ghost use Rattle.caesium_ir.specs.Function.{labels_of};
ghost use Rattle.caesium_ir.specs.Names.{are_distinct};

use crate::block::Block;
use crate::reference::Reference;
use layouts::Layout;
use rc_text::{Bytes, Place};
use sqlite_items::Items;

/// A parameter or another local of a function: its name, and the layout of its block.
#[derive(Debug, Drop)]
pub struct Local {
    pub name: Bytes,
    pub layout: Layout,
}

/// A function: its name, the layout of its result (none for void), its parameters and its further locals in the
/// order of their declaration, its blocks in order, and the place that it comes from. It begins at its block `.`.
#[derive(Debug, Drop)]
pub struct Function {
    pub name: Bytes,
    pub result: Option<Layout>,
    pub parameters: Items<Local>,
    pub locals: Items<Local>,
    pub blocks: Items<Block>,
    pub place: Place,
}

impl Function {
    /// The block of the label, found at once where it has the reference's number.
    pub fn block(&self, label: &Reference) -> Option<&Block>
        requires { IsTrue (are_distinct (labels_of self.now)) }
        ensures { option_copied result ≡ block_labelled self.now.blocks label.now }
    {
        match self.blocks.get(label.number()) {
            Some(block) if block.label.as_slice() == label.name() => Some(block),
            _ => first_labelled(self.blocks.as_slice(), label.name()),
        }
    }
}

fn first_labelled<'a>(blocks: &'a [Block], label: &[u8]) -> Option<&'a Block>
    ensures { option_copied result ≡ block_labelled blocks.now label.now }
{
    for block in blocks {
        if block.label.as_slice() == label {
            return Some(block);
        }
    }
    None
}

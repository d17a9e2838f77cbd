use rc_text::{Bytes, Place};
use sqlite_items::Items;

/// One of the strings of an attribute. `place` is that of its opening quote, at which a fault of the text
/// stands, and `text` is what stands between the quotes.
#[derive(Debug, Drop)]
pub struct AttributeText {
    pub place: Place,
    pub text: Bytes,
}

/// An attribute of prefix `rc`, this project's own. `name` is what stands behind the `::`, and `place` is
/// that of the name. Attributes of other prefixes, and without one, stand in no tree.
#[derive(Debug, Drop)]
pub struct Attribute {
    pub place: Place,
    pub name: Bytes,
    pub texts: Items<AttributeText>,
}

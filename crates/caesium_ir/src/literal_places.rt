use rc_text::Place;

/// Where a function that returns a literal has its parts: its name, the brace that opens its body, the
/// keyword `return`, and the literal.
#[derive(Clone, Copy, Debug, PartialEq, Eq, Hash)]
pub struct LiteralPlaces {
    pub name: Place,
    pub body: Place,
    pub return_: Place,
    pub literal: Place,
}

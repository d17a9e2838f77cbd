use rc_text::{Bytes, Place};

/// An identifier where it is declared, or where a fault may be about it. `place` is that of its first byte.
#[derive(Debug, Drop)]
pub struct Name {
    pub place: Place,
    pub text: Bytes,
}

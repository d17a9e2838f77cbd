ghost use Rattle.std.specs.Prelude.{◌≡◌};
ghost use Rattle.c_grammar.specs.Statements.{outermost, in_loop, in_switch};
ghost use Rattle.c_statements.specs.Parts.{position_seen};

/// Where a statement stands: whether `continue` and `break` may stand there.
#[derive(Clone, Copy)]
pub(crate) struct Position {
    pub continues: bool,
    pub breaks: bool,
}

impl Position {
    /// The body of a function.
    pub(crate) fn outermost() -> Position
        ensures { position_seen result ≡ outermost }
    {
        Position {
            continues: false,
            breaks: false,
        }
    }

    /// The body of a loop.
    pub(crate) fn in_loop() -> Position
        ensures { position_seen result ≡ in_loop }
    {
        Position {
            continues: true,
            breaks: true,
        }
    }

    /// The body of a switch.
    pub(crate) fn in_switch(self) -> Position
        ensures { position_seen result ≡ in_switch (position_seen self) }
    {
        Position {
            continues: self.continues,
            breaks: true,
        }
    }
}

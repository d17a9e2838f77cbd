ghost use Rattle.std.specs.Prelude.{◌≡◌, ◌↔◌, ℕ, List, Ok, All};
ghost use Rattle.linear_certs.specs.declared.row.Row.{Row};
ghost use Rattle.linear_certs.specs.Certificate.{IsValid};
ghost use Rattle.linear_solve.specs.declared.derived.Derived.{Derived};
ghost use Rattle.linear_solve.specs.declared.step.Eliminated.TheVariants as outcomes;
ghost use Rattle.linear_solve.specs.Levels.{elimination, first_level};
ghost use Rattle.linear_solve.specs.Failing.{certificate_of};
ghost use Rattle.linear_solve.specs.declared.solution.Solved.{Solved};
ghost use Rattle.linear_solve.specs.Unknowns.{HasNoZero};
ghost use Rattle.linear_solve.specs.Solutions.{Answers, MeetsAll, AreRefuted, OnClosed, OnOpen, IsClosed};

/// A row that fails gives a valid certificate: its multipliers in lowest terms, added up, refute the given rows.
pub fn failing_rows_give_valid_certificates()
    ensures { (rows : List Row) (unknowns : List ℕ) (derived : Derived) →
        elimination unknowns (first_level rows) ≡ Ok (outcomes.Refuted derived) →
        IsValid rows (certificate_of derived) }
{}

/// The certificate of rows that are closed is valid.
pub fn certificates_are_valid()
    ensures { (rows : List Row) (solved : Solved) → All HasNoZero rows → Answers rows (Ok solved) →
        OnClosed solved (IsValid rows) }
{}

/// The model of rows that are open meets all of them: no unknown's value is lost on the way back over the levels.
pub fn models_meet_all_rows()
    ensures { (rows : List Row) (solved : Solved) → All HasNoZero rows → Answers rows (Ok solved) →
        OnOpen solved (λ model. MeetsAll model rows) }
{}

/// Rows are closed exactly where no fractions meet all of them.
pub fn refuted_rows_are_closed()
    ensures { (rows : List Row) (solved : Solved) → All HasNoZero rows → Answers rows (Ok solved) →
        IsClosed solved ↔ AreRefuted rows }
{}

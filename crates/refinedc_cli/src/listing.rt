ghost use Rattle.std.specs.Prelude.{◌≡◌};
ghost use Rattle.refinedc_cli.specs.Listing.{bare_line, literal_lines};

/// Why a side condition holds.
#[derive(Clone, Copy, Debug, PartialEq, Eq, Hash)]
pub enum Certificate {
    /// The proposition is true as it stands.
    Trivial,
}

/// A line of the listing of an accepted file: the number of a rule, and the certificate of its side
/// condition where it has one.
#[derive(Clone, Copy, Debug, PartialEq, Eq, Hash)]
pub struct RuleLine {
    pub rule: u16,
    pub certificate: Option<Certificate>,
}

/// A line without a certificate.
fn bare_line(rule: u16) -> RuleLine
    ensures { result ≡ bare_line rule }
{
    RuleLine {
        rule,
        certificate: None,
    }
}

/// The lines of a function that returns the literal that it is declared to return.
pub fn literal_lines() -> [RuleLine; 9]
    ensures { result ≡ literal_lines }
{
    [
        bare_line(7),
        bare_line(8),
        bare_line(17),
        bare_line(23),
        bare_line(22),
        bare_line(61),
        RuleLine {
            rule: 2,
            certificate: Some(Certificate::Trivial),
        },
        bare_line(1),
        bare_line(1),
    ]
}

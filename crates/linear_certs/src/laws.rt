ghost use Rattle.std.specs.Prelude.{List, All};
ghost use Rattle.rc_terms.specs.declared.cert.Cert.{Cert};
ghost use Rattle.linear_certs.specs.declared.row.Row.{Row};
ghost use Rattle.linear_certs.specs.Certificate.{Fractions, Holds, IsValid};

/// Where a certificate is valid, no fractions for the unknowns meet all rows.
pub fn valid_certificates_refute()
    ensures { (rows : List Row) (cert : Cert) (values : Fractions) →
        IsValid rows cert → ¬ All (Holds values) rows }
{}

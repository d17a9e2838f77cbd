use sqlite_items::Items;

/// A row of a certificate: the number of a row of the side condition, from 0, and what that row is multiplied by.
#[derive(Clone, Copy, Debug, PartialEq, Eq)]
pub struct CertEntry {
    pub row: u32,
    pub multiplier: i128,
}

/// Which rows of a side condition, each times its multiplier, are added up to refute it, in this order.
#[derive(Debug, Drop)]
pub struct Cert {
    pub entries: Items<CertEntry>,
}

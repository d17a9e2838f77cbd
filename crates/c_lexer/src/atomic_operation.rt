/// The four operations of `<stdatomic.h>` that the profile has (C11 7.17.7).
#[derive(Clone, Copy, Debug, PartialEq, Eq, Hash)]
pub enum AtomicOperation {
    Load,
    Store,
    Exchange,
    CompareExchangeStrong,
}

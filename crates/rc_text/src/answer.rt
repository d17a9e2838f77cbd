/// What opening a name answers.
#[derive(Clone, Copy, Debug, PartialEq, Eq, Hash)]
pub enum Opened {
    Opened,
    Failed,
}

/// What a read or a write answers: how many bytes it took, or that it failed.
#[derive(Clone, Copy, Debug, PartialEq, Eq, Hash)]
pub enum Got {
    Count(usize),
    Failed,
}

/// What the last call on a shelf or a sink came to; `Answered` before the first one.
#[derive(Clone, Copy, Debug, PartialEq, Eq, Hash)]
pub enum LastCall {
    Answered,
    FailedOpening,
    FailedReading,
    FailedWriting,
}

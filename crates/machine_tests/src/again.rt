//! Calls that are made again where memory ran out the first time.

/// Makes a call, and makes it again if the first one is refused with this error.
macro_rules! again {
    ($call:expr, $refused:pat) => {
        match $call {
            Err($refused) => $call,
            answer => answer,
        }
    };
}

pub(crate) use again;

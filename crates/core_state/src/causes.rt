//! Why calls of a core are refused. Each cause is an NNG error.
ghost use Rattle.std.specs.Prelude.{◌≡◌};
ghost use Rattle.core_state.specs.Errors.{begin_number, now_number, attach_number, ctx_number, topic_number};

use sp_base::SpError;

/// Why nothing was begun, for the first cause that applies. As an `SpError` it is an NNG error (nng_strerror(3)).
#[derive(Clone, Copy, PartialEq, Eq, Debug)]
pub enum BeginError {
    /// The socket is closed.
    Closed,
    /// The role doesn't support it, or has no contexts.
    NotSupported,
    /// No such context is open.
    NoEntry,
    /// The protocol's state doesn't allow it.
    State,
    /// Every slot that isn't worn has an operation that was not collected.
    Busy,
    /// Out of memory.
    NoMemory,
}

impl From<BeginError> for SpError {
    ghost from_gives = { λ why r. r ≡ begin_number why };

    fn from(why: BeginError) -> SpError {
        match why {
            BeginError::Closed => SpError::Closed,
            BeginError::NotSupported => SpError::NotSupported,
            BeginError::NoEntry => SpError::NoEntry,
            BeginError::State => SpError::State,
            BeginError::Busy => SpError::Busy,
            BeginError::NoMemory => SpError::NoMemory,
        }
    }
}

/// Why nothing was received at once (nng_recvmsg(3)), for the first cause that applies.
#[derive(Clone, Copy, PartialEq, Eq, Debug)]
pub enum NowError {
    /// No receive may begin. Never when out of memory.
    Begin(BeginError),
    /// Nothing is kept for the context.
    Again,
}

impl From<NowError> for SpError {
    ghost from_gives = { λ why r. r ≡ now_number why };

    fn from(why: NowError) -> SpError {
        match why {
            NowError::Begin(e) => SpError::from(e),
            NowError::Again => SpError::Again,
        }
    }
}

/// Why a wire didn't become a pipe (nng_pipe(5)), for the first cause that applies.
#[derive(Clone, Copy, PartialEq, Eq, Debug)]
pub enum AttachError {
    /// The socket is closed.
    Closed,
    /// The role has one pipe at a time, and one is up.
    Refused,
    /// 4,096 pipes are up or wait to be taken, or 2^31 - 1 came up.
    Many,
    /// Out of memory.
    NoMemory,
}

impl From<AttachError> for SpError {
    ghost from_gives = { λ why r. r ≡ attach_number why };

    fn from(why: AttachError) -> SpError {
        match why {
            AttachError::Closed => SpError::Closed,
            AttachError::Refused | AttachError::Many => SpError::Busy,
            AttachError::NoMemory => SpError::NoMemory,
        }
    }
}

/// Why no context was opened or shut (nng_ctx(5)), for the first cause that applies.
#[derive(Clone, Copy, PartialEq, Eq, Debug)]
pub enum CtxError {
    /// The socket is closed.
    Closed,
    /// The role has no contexts, or the socket is raw.
    NotSupported,
    /// No such context is open that can be shut.
    NoEntry,
    /// 4,096 contexts are open, or 2^32 - 2 were opened.
    Busy,
    /// Out of memory.
    NoMemory,
}

impl From<CtxError> for SpError {
    ghost from_gives = { λ why r. r ≡ ctx_number why };

    fn from(why: CtxError) -> SpError {
        match why {
            CtxError::Closed => SpError::Closed,
            CtxError::NotSupported => SpError::NotSupported,
            CtxError::NoEntry => SpError::NoEntry,
            CtxError::Busy => SpError::Busy,
            CtxError::NoMemory => SpError::NoMemory,
        }
    }
}

/// Why a topic was not changed (nng_sub(7)), for the first cause that applies.
#[derive(Clone, Copy, PartialEq, Eq, Debug)]
pub enum TopicError {
    /// The socket is closed.
    Closed,
    /// The socket isn't a cooked sub.
    NotSupported,
    /// No such context is open, or it has no such topic to remove.
    NoEntry,
    /// The topic to add has more than 1,024 bytes.
    TooLong,
    /// Out of memory.
    NoMemory,
}

impl From<TopicError> for SpError {
    ghost from_gives = { λ why r. r ≡ topic_number why };

    fn from(why: TopicError) -> SpError {
        match why {
            TopicError::Closed => SpError::Closed,
            TopicError::NotSupported => SpError::NotSupported,
            TopicError::NoEntry => SpError::NoEntry,
            TopicError::TooLong => SpError::MsgSize,
            TopicError::NoMemory => SpError::NoMemory,
        }
    }
}

//! The faults of a history.

/// What is wrong.
#[derive(Clone, Copy, Debug, PartialEq, Eq)]
pub enum Fault {
    /// The number of a turn isn't a caller's.
    NoSuchCaller,
    /// The turn begins with an entry that refers to the one before it.
    BeginsInMidTurn,
    /// Something comes between an entry and what has to follow it at once.
    Interrupted,
    /// It comes after the close.
    AfterClose,
    /// Pipes and contexts are numbered from 1.
    WrongNumber,
    /// The numbers of pipes end at 2^31 - 1.
    NoMoreNumbers,
    /// A pair has one pipe.
    SecondPipe,
    /// The pipe isn't up.
    NotUp,
    /// The pipe has to go down as malformed first.
    IsMalformed,
    /// No frame of the pipe is wanted.
    NotWanted,
    /// There is no frame of the pipe just before that could be kept.
    NoFrameBefore,
    /// The wire isn't the first that is left to be taken.
    NotNextTaken,
    /// The caller isn't the turn's.
    OtherCaller,
    /// The operation's slot isn't one of the setting's.
    NoSuchSlot,
    /// The last operation of the slot was not collected.
    SlotTaken,
    /// The generation isn't the slot's next one.
    WrongGeneration,
    /// The slot has no further generation.
    WornSlot,
    /// The role doesn't support this.
    RoleCannot,
    /// The context isn't open.
    NoSuchContext,
    /// The protocol's state doesn't allow it.
    WrongState,
    /// The operation isn't pending.
    NotPending,
    /// A send can't receive.
    NotReceive,
    /// A receive can't be sent.
    NotSend,
    /// An earlier receive of the context is pending.
    NotFirst,
    /// The message isn't the oldest that is kept.
    NotOldest,
    /// The request of the receive isn't live.
    RequestOver,
    /// The send was not put on the pipes that it goes to.
    NotSent,
    /// This seat can't end an operation like this.
    WrongSeat,
    /// The operation's request was not replaced.
    NotSuperseded,
    /// The survey's time hasn't passed.
    SurveyNotOver,
    /// The operation has not ended, or was collected.
    NothingToCollect,
    /// The tick is earlier than the last.
    TimeGoesBack,
    /// The operations that are due are different ones.
    WrongDue,
    /// The role has no contexts.
    NoContexts,
    /// The socket's own context stays open.
    OwnContext,
    /// An operation of the context, or of the socket, is pending.
    StillPending,
    /// The role has no topics.
    NoTopics,
    /// The topic is there already.
    TopicThere,
    /// The topic isn't there.
    TopicAbsent,
    /// There was no copy to make for the context.
    NothingCopied,
    /// Pipes are up.
    StillUp,
    /// The totals are different.
    WrongTotals,
    /// The turn leaves a pipe up that brought a malformed frame.
    MalformedStaysUp,
    /// The turn leaves an Out that belongs to no send that is won.
    OutUnclaimed,
    /// The turn leaves a pipe up that brought a frame that was not kept.
    UnkeptStaysUp,
    /// Operations ended for a close that didn't come.
    NotShut,
    /// Pipes went down for a close that didn't come.
    NotClosed,
    /// A send that goes to all pipes didn't end in its turn.
    FloodPending,
    /// A receive is left pending though a message is kept.
    ReceiveWaits,
    /// A send is left pending though a pipe was not found full.
    SendWaits,
    /// A request is left that could go out again.
    RequestWaits,
    /// An operation is left pending whose request has ended.
    OrphanWaits,
}

//! What messages are in words of the policy, and that they stay. These functions do nothing: their
//! contracts are the laws.
ghost use Rattle.fab_sending.specs.MessageLaws.{DataFramesGoOn, MessagesAreKept, RepliesFit};

/// The replies to a frame, verdict by verdict, are the bytes of messages to its sender.
pub fn replies_fit()
    ensures { RepliesFit }
{}

/// What can be sent stays so, with the same bytes, when entries are added behind.
pub fn messages_are_kept()
    ensures { MessagesAreKept }
{}

/// A frame with a body of FCoE that can be read can go on, by its size.
pub fn data_frames_go_on()
    ensures { DataFramesGoOn }
{}

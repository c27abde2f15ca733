//! What holds of every stream.
ghost use Rattle.wire_store.specs.Written.{StreamBegins, StreamIsWhole, PacketsKept};
ghost use Rattle.wire_store.specs.Cut.{StandsOn, GaveWholes, OneList, FrontsOnly};
ghost use Rattle.wire_store.specs.Cut.{CaptureIsCut, ClassicIsCut};
ghost use Rattle.wire_store.specs.Ports.{FeedsOn, SendsOn};

/// A stream of what was heard is read as the packets of the frames, each prefix of it too.
pub fn a_stream_of_what_was_heard_is_read_back()
    ensures begins { StreamBegins }
    ensures whole { StreamIsWhole }
    ensures kept { PacketsKept }
{}

/// Whatever the pieces, a splitter gives the frame of each record that is whole in what came, once
/// and in order, and no other.
pub fn a_splitter_gives_each_whole_record()
    ensures stands { StandsOn }
    ensures wholes { GaveWholes }
    ensures one { OneList }
    ensures fronts { FrontsOnly }
{}

/// Of a capture that was written these are the frames of its records.
pub fn a_capture_is_cut_into_its_frames()
    ensures capture { CaptureIsCut }
    ensures classic { ClassicIsCut }
{}

/// What is fetched, call by call, is a prefix of the stream of what was heard.
pub fn fetches_are_of_one_stream()
    ensures { FeedsOn }
{}

/// What a port is given to send, put by put, are the frames of the records that are whole in what
/// was put.
pub fn a_port_is_given_what_was_put()
    ensures { SendsOn }
{}

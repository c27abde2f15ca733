//! What holds of every file and every reading.
ghost use Rattle.pcapng_file.specs.Laws.{ReadIsFile, OneList};
ghost use Rattle.pcapng_file.specs.Classic.{ReadsBack, OrderedReadsBack};
ghost use Rattle.pcapng_file.specs.Stream.{StreamIsFile, StreamStopsAsFile};

/// Packets are read exactly where the bytes are a file of them, within the limits.
pub fn a_reading_is_the_file()
    ensures { ReadIsFile }
{}

/// Bytes are a file of one list of packets at most.
pub fn a_file_has_one_list_of_packets()
    ensures { OneList }
{}

/// The classic capture of packets is read as their records, each with the greatest moment so far.
pub fn a_capture_of_packets_is_read_back()
    ensures { ReadsBack }
{}

/// Where no moment lies before the one in front of it, these records are the packets.
pub fn packets_in_order_are_read_back()
    ensures { OrderedReadsBack }
{}

/// A stream that ends has read the whole file, and one that stops has the fault or limit that
/// reading the whole file has.
pub fn a_stream_is_read_as_its_file()
    ensures ends { StreamIsFile }
    ensures stops { StreamStopsAsFile }
{}

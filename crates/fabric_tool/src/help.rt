//! The texts of `--help` and `--version`.
ghost use Rattle.std.specs.Prelude.{◌≡◌};
ghost use Rattle.fabric_tool.specs.Help as spec;

const HELP: &str = "\
fcoe_tool 0.1.0: an FCoE forwarder, run over captures

  fcoe_tool run CONFIG JOURNAL IN OUT [IN OUT ..]
      runs the forwarder over the captures of 1 to 64 ports; writes the journal
      and a capture for each port, and prints: frames N entries M
  fcoe_tool show CONFIG JOURNAL IN [IN ..]
      checks a journal against the captures that it was written for, and prints
      its entries, its clock, and who is logged in at its end
  fcoe_tool replay CONFIG JOURNAL IN OUT [IN OUT ..]
      checks a journal against its captures, and that each output is what it
      sends, and prints: legal M
  fcoe_tool convert IN OUT
      reads a pcapng file, writes the classic capture of its packets, and
      prints: records N
  fcoe_tool migrate OLD NEW
      writes a journal of format 1 in format 2, and prints: migrated M
  fcoe_tool make NUMBER CONFIG IN1 IN2 IN3 IN4 IN5 IN6 IN7 IN8
      writes a configuration and the captures of 8 ports, all drawn from this
      number, and prints: made 20000
  fcoe_tool snoop CONFIG IN OUT IN OUT [IN OUT ..]
      lets the frames of 2 to 64 ports cross a FIP snooping bridge, of which
      port 1 is the forwarder's; writes a capture of what each port gets, and
      prints: passed N dropped M
  fcoe_tool enode START MAC PORTNAME NODENAME IN OUT
      runs a node, from this moment on, over the capture of what its port
      receives; writes the capture of what it sends, and prints where it stands
      in the end: asking, looking, logging, or up ADDRESS MAC
  fcoe_tool live CONFIG JOURNAL STREAM IN OUT [IN OUT ..]
      runs the forwarder over a pcapng stream while it comes; its interfaces
      are the 1 to 64 ports; writes the journal, and for each port what came
      and what is sent, and prints: frames N entries M
  fcoe_tool --help
      prints this text
  fcoe_tool --version
      prints the version

No file name is empty, and none is used twice. Where two names lead to one file
on disk no output is opened, and the status is 4. NUMBER is decimal and below 2
to the 64, START is at most 4294967295999 (in milliseconds); neither has a sign
or a leading zero. The statuses, with what is printed:

  0  as above: all was done
  1  config LINE WHY: the first fault of the configuration
     capture PORT PLACE WHY: an input can't be taken from this place on
     journal LINE WHY: the first fault of the journal to migrate, or the first
     line of the journal to check that no run has there
     output PORT PLACE: the first byte of an output that isn't what is sent
     stream PLACE WHY: the stream can't be taken from this block on
     stream port PORT: a packet is of an interface that is no port
  2  words: the words are no command
  3  read fault: an input could not be read
  4  write fault: an output, or what is printed, could not be written
  5  no memory: memory was refused
  6  limit WHAT NUMBER: the inputs pass this limit

After status 1 or 6 of run and live the journal and the captures hold what came
before that place. No file has changed after status 2, nor where the
configuration or the head of a capture is at fault, nor after statuses 1, 3 and
6 of convert, migrate, snoop and enode.
";

/// The commands, what they print, and the statuses.
pub fn help() -> &'static str
    ensures { result.now ≡ spec.help_text }
{
    HELP
}

/// The program and its version.
pub(crate) fn version() -> &'static str
    ensures { result.now ≡ spec.version_text }
{
    "fcoe_tool 0.1.0\n"
}

//! Scripts with their records, which were worked out by hand from the tables of the machine.

/// A process sends a message to another, which takes it.
pub const ONE_MESSAGE: &[u8] =
    b"sigscript 1\nprocess a\nsend @b hi\nprocess b\nreceive\non X\nend\n";

/// Its record.
pub const ONE_MESSAGE_RECORD: &[u8] =
    b"sigrecord 1\nprocess 0 a\n1 exec 1 sent <1> hi\n2 exec 2 ended normal\nstate ended normal\n\
      process 1 b\n2 from 0 1 kept hi\n3 exec 1 took 1 1 hi\n4 exec 2 ended normal\nstate ended normal\n";

/// Two clients of a server, which has both calls before it replies to the first of them.
pub const CLIENTS: &[u8] =
    b"sigscript 1\nprocess s\nreceive\non {call,P}\nend\nsend P ok\nreceive\non {call,Q}\nend\nsend Q ok\n\
      process a\nsend @s {call,@a}\nreceive\non ok\nend\nprocess b\nsend @s {call,@b}\nreceive\non ok\nend\n";

/// A record of two processes that did nothing, which is that of none of these scripts.
pub const WRONG_RECORD: &[u8] = b"sigrecord 1\nprocess 0 a\nstate cut\nprocess 1 b\nstate cut\n";

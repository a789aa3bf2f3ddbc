//! A text of calls, and the script that it spells.

/// A text with one call.
pub const ONE_CALL: &[u8] =
    b"sigscript 1\nprocess srv\nreceive\non {call,R,V}\nend\nsend R {R,V}\nprocess c\ncall A @srv 7\n";

/// Its script.
pub const ONE_CALL_SCRIPT: &[u8] =
    b"sigscript 1\nturns 1000\nprocess srv\nreceive\non {call,R,V}\nend\nsend R {R,V}\nprocess c\nreserve\n\
      monitor Call_1 @srv reply_demonitor\nbind Call_1\nsend @srv {call,Call_1,7}\nreceive using Call_1\n\
      on {^Call_1,A}\non {'DOWN',^Call_1,process,_,A}\nend\n";

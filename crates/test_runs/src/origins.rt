//! Which event sent each signal of a record.

use crate::whole::text_of;
use sig_check::{Replaying, replay};
use sig_model::{Origin, Origins};
use sig_record::{Record, read_record};
use sig_script::{Script, read_script};
use std::alloc::Global;
use test_shared::{ONE_MESSAGE, ONE_MESSAGE_RECORD};

/// The script and the record of these texts, where both are some.
fn read_both(alloc: Global, script: &[u8], record: &[u8]) -> Option<(Script, Record)> {
    let script = read_script(alloc, script).ok()?;
    match read_record(alloc, record) {
        Ok(record) => Some((script, record)),
        Err(_) => {
            drop(script);
            None
        }
    }
}

/// Which event sent each signal of the script of one message.
const ONE_MESSAGE_SENT: &[[u64; 4]] = &[[0, 1, 1, 1]];

/// A process with two messages to itself, and its record.
const OWN: (&[u8], &[u8]) = (
    b"process r\nsend @r a\nsend @r b\nreceive\non b\non a\nend\n",
    b"process 0 r\n1 exec 1 sent <0> a\n2 from 0 1 kept a\n3 exec 2 sent <0> b\n4 from 0 2 kept b\n\
      5 exec 3 took 2 1 a\n6 exec 4 ended normal\nstate ended normal\n",
);

const OWN_SENT: &[[u64; 4]] = &[[0, 0, 1, 1], [0, 0, 2, 3]];

/// Examples of monitors and aliases with their records, without their first lines, and which event sent each of
/// their signals: its sender, its receiver, its number and the event.
static SENT: [(&[u8], &[u8], &[[u64; 4]]); 3] = [
    // A reply alias is sent to twice.
    (
        b"process a\nalias A reply\nsend @b A\nreceive\non {r,N}\nend\nreceive\non {r,N}\nafter\nend\n\
          process b\nreceive\non X\nend\nsend X {r,1}\nsend X {r,2}\n",
        b"process 0 a\n1 exec 1 set #Ref<0.1>\n2 exec 2 sent <1> #Ref<0.1>\n6 from 1 1 kept {r,1}\n\
          7 exec 3 took 1 1 {r,1}\n8 from 1 2 dropped\n9 exec 4 after 0\n10 exec 5 ended normal\nstate ended normal\n\
          process 1 b\n3 from 0 1 kept #Ref<0.1>\n4 exec 1 took 1 1 #Ref<0.1>\n5 exec 2 sent #Ref<0.1> {r,1}\n\
          6 exec 3 sent #Ref<0.1> {r,2}\n7 exec 4 ended normal\nstate ended normal\n",
        &[[0, 1, 1, 2], [1, 0, 1, 3], [1, 0, 2, 4]],
    ),
    // The monitor is the first signal, and given up when the reply is handled.
    (
        b"process a\nmonitor M @b reply_demonitor\nsend @b M\nreceive\non ok\nend\n\
          receive\non {'DOWN',^M,process,_,R}\nend\nprocess b\nreceive\non X\nend\nsend X ok\n",
        b"process 0 a\n1 exec 1 set #Ref<0.1>\n2 exec 2 sent <1> #Ref<0.1>\n6 from 1 1 kept ok\n\
          7 exec 3 took 1 1 ok\nstate waiting\n\
          process 1 b\n2 from 0 1 watched\n3 from 0 2 kept #Ref<0.1>\n4 exec 1 took 1 1 #Ref<0.1>\n\
          5 exec 2 sent #Ref<0.1> ok\n7 from 0 3 unwatched\n8 exec 3 ended normal\nstate ended normal\n",
        &[[0, 1, 1, 1], [0, 1, 2, 2], [1, 0, 1, 4], [0, 1, 3, 3]],
    ),
    // Who ends tells of a link and of two monitors at one event.
    (
        b"process a\nset X 1\nset X 2\nset X 3\nset X 4\nexit boom\n\
          process b\ntrap on\nmonitor M @a\nlink @a\nmonitor N @a\nreceive\non never\nend\n",
        b"process 0 a\n1 exec 1 set 1\n2 exec 2 set 2\n3 from 1 1 watched\n4 exec 3 set 3\n5 from 1 2 linked\n\
          6 exec 4 set 4\n7 from 1 3 watched\n8 exec 5 ended boom\nstate ended boom\n\
          process 1 b\n1 exec 1 done\n2 exec 2 set #Ref<1.1>\n3 exec 3 done\n4 exec 4 set #Ref<1.2>\n\
          9 from 0 1 kept {'EXIT',<0>,boom}\n10 from 0 2 kept {'DOWN',#Ref<1.1>,process,<0>,boom}\n\
          11 from 0 3 kept {'DOWN',#Ref<1.2>,process,<0>,boom}\nleft 1 {'EXIT',<0>,boom}\n\
          left 2 {'DOWN',#Ref<1.1>,process,<0>,boom}\nleft 3 {'DOWN',#Ref<1.2>,process,<0>,boom}\nstate waiting\n",
        &[
            [1, 0, 1, 2],
            [1, 0, 2, 3],
            [1, 0, 3, 4],
            [0, 1, 1, 8],
            [0, 1, 2, 8],
            [0, 1, 3, 8],
        ],
    ),
];

/// Whether the origin is of these numbers.
fn is_of(origin: &Origin, numbers: &[u64; 4]) -> bool {
    let [from, to, number, event] = *numbers;
    origin.from.0 as u64 == from
        && origin.to.0 as u64 == to
        && origin.number == number
        && origin.event == event
}

/// Whether the origins are these.
fn are_these(origins: &Origins, sent: &[[u64; 4]]) -> bool {
    if origins.len() != sent.len() {
        return false;
    }
    for (origin, numbers) in origins.as_slice().iter().zip(sent) {
        if !is_of(origin, numbers) {
            return false;
        }
    }
    true
}

/// Whether a replay of this record of this script tells these origins.
fn tells(alloc: Global, script: &Script, record: &Record, sent: &[[u64; 4]]) -> Option<bool> {
    let replaying = replay(alloc, script, record).ok()?;
    let told = match &replaying {
        Replaying::Replayed { origins, .. } => Some(are_these(origins, sent)),
        Replaying::Stopped { .. } => None,
    };
    drop(replaying);
    told
}

/// The same of the texts of a script and a record.
fn are_told(alloc: Global, script: &[u8], record: &[u8], sent: &[[u64; 4]]) -> Option<bool> {
    let (script, record) = read_both(alloc, script, record)?;
    let told = tells(alloc, &script, &record, sent);
    drop(record);
    drop(script);
    told
}

/// The same of a script and a record without their first lines.
fn are_told_of(alloc: Global, script: &[u8], record: &[u8], sent: &[[u64; 4]]) -> Option<bool> {
    let script = text_of(alloc, &[(b"sigscript 1\n", 1), (script, 1)]).ok()?;
    let told = are_told_under(alloc, script.as_slice(), record, sent);
    drop(script);
    told
}

/// The same of a record without its first line.
fn are_told_under(alloc: Global, script: &[u8], record: &[u8], sent: &[[u64; 4]]) -> Option<bool> {
    let record = text_of(alloc, &[(b"sigrecord 1\n", 1), (record, 1)]).ok()?;
    let told = are_told(alloc, script, record.as_slice(), sent);
    drop(record);
    told
}

#[test]
fn signals_have_their_origins(rt: HostRuntime) {
    let alloc = rt.alloc();
    let one = are_told(alloc, ONE_MESSAGE, ONE_MESSAGE_RECORD, ONE_MESSAGE_SENT);
    assert!(rt; one == Some(true));
    let own = are_told_of(alloc, OWN.0, OWN.1, OWN_SENT);
    assert!(rt; own == Some(true));
    for (script, record, sent) in &SENT {
        let told = are_told_of(alloc, script, record, sent);
        assert!(rt; told == Some(true), "{script:?}");
    }
}

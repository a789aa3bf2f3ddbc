//! Worked examples of exits and exit signals, through the top call.

/// Scripts without their first line, and their records without theirs.
pub(crate) static EXITS: [(&[u8], &[u8]); 5] = [
    (
        b"process a\nexit {bye,1}\nset X unreached\n",
        b"process 0 a\n1 exec 1 ended {bye,1}\nstate ended {bye,1}\n",
    ),
    (
        b"process a\nexit normal\n",
        b"process 0 a\n1 exec 1 ended normal\nstate ended normal\n",
    ),
    (
        b"process a\nexit_to b kill\n",
        b"process 0 a\n1 exec 1 ended badarg\nstate ended badarg\n",
    ),
    (
        b"process a\nexit_to {@a} normal\n",
        b"process 0 a\n1 exec 1 ended badarg\nstate ended badarg\n",
    ),
    (
        b"process a\ntrap on\ntrap off\n",
        b"process 0 a\n1 exec 1 done\n2 exec 2 done\n3 exec 3 ended normal\nstate ended normal\n",
    ),
];

pub(crate) static EXIT_SIGNALS: [(&[u8], &[u8]); 8] = [
    (
        b"process a\ntrap on\nreceive\non never\nend\nprocess b\nexit_to @a kill\n",
        b"process 0 a\n1 exec 1 done\n2 from 1 1 ended killed\nstate ended killed\n\
          process 1 b\n1 exec 1 done\n2 exec 2 ended normal\nstate ended normal\n",
    ),
    (
        b"process a\nexit_to @a normal\n",
        b"process 0 a\n1 exec 1 done\n2 from 0 1 ended normal\nstate ended normal\n",
    ),
    (
        b"process a\nexit_to @a kill\n",
        b"process 0 a\n1 exec 1 done\n2 from 0 1 ended killed\nstate ended killed\n",
    ),
    (
        b"process a\ntrap on\nreceive\non {'EXIT',P,R}\nend\nset All [P,R]\nprocess b\nexit_to @a {boom,1}\n",
        b"process 0 a\n1 exec 1 done\n2 from 1 1 kept {'EXIT',<1>,{boom,1}}\n\
          3 exec 2 took 1 1 {'EXIT',<1>,{boom,1}}\n4 exec 3 set [<1>,{boom,1}]\n\
          5 exec 4 ended normal\nstate ended normal\n\
          process 1 b\n1 exec 1 done\n2 exec 2 ended normal\nstate ended normal\n",
    ),
    (
        b"process a\nreceive\non never\nend\nprocess b\nexit_to @a normal\n",
        b"process 0 a\n2 from 1 1 dropped\nstate waiting\n\
          process 1 b\n1 exec 1 done\n2 exec 2 ended normal\nstate ended normal\n",
    ),
    (
        b"process a\nreceive\non never\nend\nprocess b\nsend @a hello\nexit_to @a boom\n",
        b"process 0 a\n2 from 1 1 kept hello\n3 from 1 2 ended boom\nstate ended boom\n\
          process 1 b\n1 exec 1 sent <0> hello\n2 exec 2 done\n3 exec 3 ended normal\nstate ended normal\n",
    ),
    (
        b"process a\nprocess b\nexit_to @a kill\n",
        b"process 0 a\n1 exec 1 ended normal\n2 from 1 1 dropped\nstate ended normal\n\
          process 1 b\n1 exec 1 done\n2 exec 2 ended normal\nstate ended normal\n",
    ),
    (
        b"turns 1\nprocess a\nset X 1\nprocess b\nexit_to @a {late,X}\n",
        b"process 0 a\n1 exec 1 set 1\nqueued 1 1 1 exit plain {late,undefined}\nstate cut\n\
          process 1 b\n1 exec 1 done\nstate cut\n",
    ),
];

//! Runs of each command, by the call that the program's `main` makes: their answers, what they
//! write of a fault, and their status.
use crate::args::run_args;
use std::alloc::{AllocError, Global};
use std::process::Abort;
use std::sync::Wait;
use std::thread::Threads;

/// A text, and how often it is repeated.
type Part = (&'static str, usize);

/// A script, its answers, and what its run writes of a fault. A run that writes nothing of a fault
/// ends well.
type Row = (&'static [Part], &'static [Part], &'static str);

const USAGE: &str = "usage: p9sync pipe | replay | threads --writers W --writes K --size S\n";

/// The parts, one after another.
fn joined(alloc: Global, parts: &[Part]) -> Result<Vec<u8>, AllocError> {
    let mut all = Vec::new(alloc);
    for (text, times) in parts {
        for _ in 0..*times {
            all.extend_from_slice(text.as_bytes())?;
        }
    }
    Ok(all)
}

/// The parts, one after another. A test whose memory is refused ends here.
fn text_of(rt: &impl Abort, alloc: Global, parts: &[Part]) -> Vec<u8> {
    match joined(alloc, parts) {
        Ok(text) => text,
        Err(_) => panic!(rt; "no memory"),
    }
}

/// Runs the program on these words, and compares all its output and its status.
fn runs<T: Threads + Wait + Sync + Abort>(
    rt: &T,
    alloc: Global,
    words: &[&str],
    script: &[u8],
    wanted: (u8, &[u8], &str),
) {
    let mut input = script;
    let mut out = Vec::new(alloc);
    let mut err = Vec::new(alloc);
    let status = run_args(alloc, rt, words, &mut input, &mut out, &mut err);
    let (wanted_status, answers, said) = wanted;
    assert_eq!(rt; status, wanted_status, "{words:?}");
    assert_eq!(rt; out.as_slice(), answers, "{words:?}");
    assert_eq!(rt; err.as_slice(), said.as_bytes(), "{words:?}");
}

/// Plays each row by this command.
fn plays<T: Threads + Wait + Sync + Abort>(rt: &T, alloc: Global, command: &str, rows: &[Row]) {
    for (script, answers, said) in rows {
        let script = text_of(rt, alloc, script);
        let answers = text_of(rt, alloc, answers);
        let status = if said.is_empty() { 0 } else { 1 };
        runs(
            rt,
            alloc,
            &["p9sync", command],
            &script,
            (status, &answers, said),
        );
    }
}

const PIPE_ROWS: [Row; 18] = [
    // a write is read back
    (
        &[("limit 2\nwrite 0 616263\nread 8\n", 1)],
        &[("taken\ngot 616263\n", 1)],
        "",
    ),
    // a read never joins two writes
    (
        &[(
            "limit 4\nwrite 0 616263\nwrite 1 6465\nread 2\nread 8\nread 8\n",
            1,
        )],
        &[("taken\ntaken\ngot 6162\ngot 63\ngot 6465\n", 1)],
        "",
    ),
    // an empty write is read as an empty piece
    (
        &[("limit 2\nwrite 0 -\nread 4\nread 4\n", 1)],
        &[("taken\ngot -\nempty\n", 1)],
        "",
    ),
    // a begun write frees its place
    (
        &[
            (
                "limit 1\nwrite 0 616263\nwrite 0 64\nread 1\nwrite 0 64\n",
                1,
            ),
            ("read 8\nread 8\n", 1),
        ],
        &[("taken\nfull\ngot 61\ntaken\ngot 6263\ngot 64\n", 1)],
        "",
    ),
    // what was accepted is read after a hangup
    (
        &[
            (
                "limit 2\nwrite 0 6162\nhangup\nwrite 0 63\nread 1\nread 8\n",
                1,
            ),
            ("read 8\nread 8\nhangup\n", 1),
        ],
        &[("taken\nok\nhungup\ngot 61\ngot 62\nend\nend\nok\n", 1)],
        "",
    ),
    // a size is tested before a hangup
    (
        &[
            ("limit 1\nread 0\nwrite 0 ", 1),
            ("00", 65537),
            ("\nwrite 0 ", 1),
            ("00", 65536),
            ("\nhangup\nwrite 0 ", 1),
            ("00", 65537),
            ("\nread 70000\nread 1\n", 1),
        ],
        &[
            ("bad count\ntoo big\ntaken\nok\ntoo big\ngot ", 1),
            ("00", 65536),
            ("\nend\n", 1),
        ],
        "",
    ),
    // a stream read joins writes
    (
        &[
            ("limit 4 stream\nwrite 0 616263\nwrite 1 6465\nread 4\n", 1),
            ("read 8\nread 8\n", 1),
        ],
        &[("taken\ntaken\ngot 61626364\ngot 65\nempty\n", 1)],
        "",
    ),
    // a stream read leaves empty writes after its last byte
    (
        &[
            ("limit 3 stream\nwrite 0 -\nwrite 0 61\nwrite 0 -\n", 1),
            (
                "write 0 62\nread 1\nwrite 0 62\nhangup\nread 8\nread 8\n",
                1,
            ),
        ],
        &[(
            "taken\ntaken\ntaken\nfull\ngot 61\ntaken\nok\ngot 62\nend\n",
            1,
        )],
        "",
    ),
    // a stream read passes empty writes
    (
        &[("limit 1 stream\nwrite 0 -\nread 8\nwrite 0 61\nread 8\n", 1)],
        &[("taken\nempty\ntaken\ngot 61\n", 1)],
        "",
    ),
    // an empty script is a fault
    (&[], &[], "p9sync: script fault at line 1\n"),
    // half a byte is a fault
    (
        &[("limit 2\nwrite 0 616\n", 1)],
        &[],
        "p9sync: script fault at line 2\n",
    ),
    // a line without its end is a fault
    (
        &[("limit 2\nread 8", 1)],
        &[],
        "p9sync: script fault at line 2\n",
    ),
    // an unknown word keeps the answers before it
    (
        &[("limit 2\nwrite 0 61\nfrob\n", 1)],
        &[("taken\n", 1)],
        "p9sync: script fault at line 3\n",
    ),
    // no pipe has the limit 0
    (&[("limit 0\n", 1)], &[], "p9sync: script fault at line 1\n"),
    // no pipe has the mode streams
    (
        &[("limit 2 streams\n", 1)],
        &[],
        "p9sync: script fault at line 1\n",
    ),
    // no pipe has the writer 64
    (
        &[("limit 2\nwrite 64 61\n", 1)],
        &[],
        "p9sync: script fault at line 2\n",
    ),
    // no number begins with a zero
    (
        &[("limit 2\nread 08\n", 1)],
        &[],
        "p9sync: script fault at line 2\n",
    ),
    // a limit alone says nothing
    (&[("limit 2\n", 1)], &[], ""),
];

const REPLAY_ROWS: [Row; 18] = [
    // a wakeup comes before the post
    (
        &[
            ("world 2 1\nraise 1 0 1\ntake 1\npost 0 0 0\ntest 0\n", 1),
            ("withdraw 0\nclear 0\n", 1),
        ],
        &[("owing\nnobody\nposted\nleaving\nout\nok\nlost no\n", 1)],
        "",
    ),
    // a wakeup comes between post and test
    (
        &[
            ("world 2 1\npost 0 0 0\nraise 1 0 1\ntake 1\ntest 0\n", 1),
            ("withdraw 0\nlook 0\nmark 1\nlook 0\nclear 0\n", 1),
        ],
        &[
            ("posted\nowing\nholding 0\nleaving\nawaiting\nparked\n", 1),
            ("marked 0\nwoken\nok\nlost no\n", 1),
        ],
        "",
    ),
    // a wakeup takes a process that is asleep
    (
        &[
            ("world 2 1\npost 0 0 0\ntest 0\ncheck 0\nraise 1 0 1\n", 1),
            ("take 1\ncheck 0\nlook 0\nmark 1\nlook 0\nclear 0\n", 1),
        ],
        &[
            (
                "posted\nasleep\nposted\nowing\nholding 0\nreleased\nparked\n",
                1,
            ),
            ("marked 0\nwoken\nok\nlost no\n", 1),
        ],
        "",
    ),
    // a note and a wakeup race
    (
        &[
            (
                "world 2 1\npost 0 0 0\ntest 0\nnote 0 interrupt\nlook 0\n",
                1,
            ),
            (
                "raise 1 0 1\ntake 1\nwithdraw 0\nmark 1\nlook 0\nclear 0\n",
                1,
            ),
        ],
        &[
            (
                "posted\nasleep\nnoted\nleaving\nowing\nholding 0\nawaiting\n",
                1,
            ),
            ("marked 0\nwoken\ninterrupted interrupt\nlost no\n", 1),
        ],
        "",
    ),
    // pending notes end a sleep whose condition holds
    (
        &[
            (
                "world 2 1\nnote 0 alarm\nnote 0 interrupt\nnote 0 alarm\n",
                1,
            ),
            ("raise 1 0 5\ntake 1\npost 0 0 0\ntest 0\nwithdraw 0\n", 1),
            ("clear 0\ndrain 0\n", 1),
        ],
        &[
            (
                "noted\nnoted\nnoted\nowing\nnobody\nposted\nleaving\nout\n",
                1,
            ),
            ("interrupted interrupt,alarm\nnotes -\nlost no\n", 1),
        ],
        "",
    ),
    // refused events change nothing
    (
        &[
            ("world 3 1\npost 0 0 0\npost 1 0 0\n", 1),
            ("post 2 0 18446744073709551615\npost 2 1 0\npost 0 0 0\n", 1),
            ("test 3\nclear 0\ntake 0\n", 1),
        ],
        &[
            ("posted\ndouble sleep\nbad level\nno rendez\nrefused\n", 1),
            ("no process\nrefused\nrefused\nlost no\n", 1),
        ],
        "",
    ),
    // a low wakeup takes a process before it falls asleep
    (
        &[
            ("world 3 1\npost 0 0 0\nraise 1 0 0\ntake 1\ntest 0\n", 1),
            ("raise 2 0 1\ntake 2\nlook 0\nmark 1\nlook 0\nclear 0\n", 1),
        ],
        &[
            (
                "posted\nowing\nholding 0\nasleep\nowing\nnobody\nparked\n",
                1,
            ),
            ("marked 0\nwoken\nok\nlost no\n", 1),
        ],
        "",
    ),
    // kinds are told in one order
    (
        &[("world 1 1\nnote 0 expired,alarm\ndrain 0\n", 1)],
        &[("noted\nnotes alarm,expired\nlost no\n", 1)],
        "",
    ),
    // no world has 1025 processes
    (
        &[("world 1025 1\n", 1)],
        &[],
        "p9sync: script fault at line 1\n",
    ),
    // no world has 8193 Rendez
    (
        &[("world 1 8193\n", 1)],
        &[],
        "p9sync: script fault at line 1\n",
    ),
    // a post has a threshold
    (
        &[("world 1 1\npost 0 0\n", 1)],
        &[],
        "p9sync: script fault at line 2\n",
    ),
    // no process is named with a zero in front
    (
        &[("world 1 1\ncheck 00\n", 1)],
        &[],
        "p9sync: script fault at line 2\n",
    ),
    // a kind twice is a fault
    (
        &[("world 1 1\nnote 0 alarm,alarm\n", 1)],
        &[],
        "p9sync: script fault at line 2\n",
    ),
    // a fault ends a schedule with no last line
    (
        &[("world 1 1\ndrain 0\nnote 0 bell\n", 1)],
        &[("notes -\n", 1)],
        "p9sync: script fault at line 3\n",
    ),
    // the largest world has its last process and rendez
    (
        &[(
            "world 1024 8192\npost 1023 8191 18446744073709551614\ntest 1023\n",
            1,
        )],
        &[("posted\nasleep\nlost no\n", 1)],
        "",
    ),
    // a group note is a note to each
    (
        &[
            ("world 3 1\npost 1 0 0\ntest 1\nnotepg 0,1,5 interrupt\n", 1),
            ("look 1\nwithdraw 1\nclear 1\ndrain 0\n", 1),
        ],
        &[
            (
                "posted\nasleep\nnoted\nnoted\nno process\nleaving\nout\n",
                1,
            ),
            ("interrupted interrupt\nnotes interrupt\nlost no\n", 1),
        ],
        "",
    ),
    // a group that falls is a fault
    (
        &[("world 3 1\nnotepg 1,0 alarm\n", 1)],
        &[],
        "p9sync: script fault at line 2\n",
    ),
    // a world alone has lost nothing
    (&[("world 1 1\n", 1)], &[("lost no\n", 1)], ""),
];

#[test]
fn scripts_of_a_pipe_are_answered(rt: HostRuntime) {
    plays(&rt, rt.alloc(), "pipe", &PIPE_ROWS);
}

#[test]
fn schedules_are_answered(rt: HostRuntime) {
    plays(&rt, rt.alloc(), "replay", &REPLAY_ROWS);
}

/// The words of a command line, and the status, the answers and what is written of a refusal.
type Line = (&'static [&'static str], u8, &'static str, &'static str);

const LINES: [Line; 10] = [
    (
        &[
            "p9sync",
            "threads",
            "--writers",
            "4",
            "--writes",
            "1000",
            "--size",
            "16",
        ],
        0,
        "writers 4 writes 4000 bytes 64000 in order\n",
        "",
    ),
    (&["p9sync"], 2, "", USAGE),
    (&["p9sync", "frob"], 2, "", USAGE),
    (&["p9sync", "replay", "pipe"], 2, "", USAGE),
    (&["p9sync", "--help"], 2, "", USAGE),
    (&["p9sync", "pipe", "--help"], 2, "", USAGE),
    (&["p9sync", "PIPE"], 2, "", USAGE),
    (
        &[
            "p9sync",
            "threads",
            "--writers",
            "65",
            "--writes",
            "1",
            "--size",
            "16",
        ],
        2,
        "",
        USAGE,
    ),
    (
        &["p9sync", "threads", "--writers", "4", "--writes", "1"],
        2,
        "",
        USAGE,
    ),
    (
        &[
            "p9sync",
            "threads",
            "--writers",
            "4",
            "--writes",
            "1",
            "--size",
            "16",
            "pipe",
            "replay",
        ],
        2,
        "",
        USAGE,
    ),
];

#[test]
fn other_words_run_threads_or_nothing(rt: HostRuntime) {
    for (words, status, answers, said) in LINES {
        runs(
            &rt,
            rt.alloc(),
            words,
            b"limit 2\nread 8\n",
            (status, answers.as_bytes(), said),
        );
    }
}

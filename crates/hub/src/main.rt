//! The program `hub`: takes the words and the output, and runs the words over the real folder, clock and store.
#![tactic(auto)]

use outside_ports::{IoSink, Sink};
use real_run::{bad_place, lines, names_serve, print, run_real, serve_real, statuses};
use std::env;
use std::io::{self, ErrorKind};
use std::process::ExitCode;
use std::rt::Env;
use std::sync::Wait;
use std::thread::Threads;

const HELP: &str = "\
hub [--store DIR] [--folder DIR] [--peer HOST:PORT] [--keep N] COMMAND

feeds
  publish FEED=DIR ..   publishes the set in each folder DIR as the feed FEED, one after another, and
                        prints the version that each leads to
  show KIND             prints the rows of KIND.csv, in order of id, as JSON

callers
  grant FILE            gives each caller what FILE asks for, in place of all grants, and prints the
                        version that this leads to
  ask FILE              answers the HTTP requests in FILE, one behind another, and prints their replies
  serve CONNECTIONS ADDRESS .. FEED=DIR ..
                        serves the hub at each ADDRESS, a host and a port, until so many connections, 1
                        to 1000000, were served there one after another, and beside them publishes the
                        set in each folder DIR as the feed FEED; an ADDRESS that is named several times
                        serves as many connections at once; prints nothing, and tells on standard error
                        where it listens and what came of each feed

copies
  sync TOKEN LIMIT TRIES
                        copies what TOKEN sees of the hub at the peer's address, in pages of LIMIT rows,
                        1 to 1000, and tries each request TRIES times, 1 to 100; prints the version of
                        the copy
  delta TOKEN LIMIT TRIES
                        the same of a copy that holds a version under TOKEN, and asks for what differs
                        from that one alone, in pages of LIMIT entries
  cascade FEED          makes the rows of the copy those of FEED in the hub beside it, and prints
                        the version that this leads to
  follow TOKEN LIMIT TRIES FEED
                        brings the copy to the newest version of the hub at the peer's address, as delta
                        does, or as sync where it holds none under TOKEN that this hub still keeps, and
                        makes its rows those of FEED, as cascade does; prints both versions
  list KIND             prints the rows of KIND that the copy holds, in order of id, as JSON
  export manifest bulk  prints the manifest of a set with a file of each kind, all bulk
  export manifest delta the same, all delta
  export KIND           prints KIND.csv with the rows that the copy holds, in order of id
  export KIND since DIR prints KIND.csv with the rows that differ from the set in the folder DIR, and the
                        rows that the set has beside them, marked tobedeleted

outbox
  enter put KIND ID FILE
                        puts a write into the outbox of the copy: that the row of KIND with this ID be as
                        the body in FILE says, of 131072 bytes at most; prints the number of the entry
  enter delete KIND ID  the same, that the row be deleted
  send TOKEN TRIES      sends the entries that wait to the hub at the peer's address, one after another,
                        under TOKEN, and tries each request TRIES times; prints how many were settled
  outbox                prints the entries: of each its number, and the status and the version of the
                        hub's reply, or that it waits

rehearsals, in a world of their own: a hub and a copy that hold nothing, and no store
  rehearse FILE         runs the script in FILE line by line, with lost replies, late requests, commits
                        that fail and restarts at the numbers that it names, and prints what each does
  make SCHOOLS          makes a district of so many schools, 1 to 200, publishes it, copies it and prints
                        how many rows of each kind the copy holds

KIND is one of orgs, academicSessions, courses, classes, users, enrollments, demographics, categories,
lineItems, results, resources, classResources, courseResources; with enter one of categories, lineItems and
results.

--store DIR        the folder where the stores of the hub and of the copy are kept, in place of memory
--folder DIR       the folder where the command finds its files, in place of the working folder
--peer HOST:PORT   the address of the hub that is copied; without it each try fails
--keep N           how many versions a new store keeps beside the newest, 1 to 100000, in place of 10000
--help             prints this; behind a command, the words of that command
--version          prints the version and the formats of the stores

  hub --store st --folder examples publish sis=lake
  hub --store copy --peer 127.0.0.1:8080 sync tok-e 1000 3

status
   0  done                               9  the hub doesn't know the token
   1  the output could not be written   10  the token doesn't open that write
   2  the words are no command          11  the hub has another write under the entry's number
   3  the folder failed                 12  the reply is none that a hub gives
   4  the input is refused              13  there are too many rows, or bytes of a file
   5  the hub's store failed            14  the hub failed
   6  the copy's store failed           15  the hub had no memory
   7  the peer wasn't reached           16  the last run or entry
   8  the version is kept no longer     17  memory ran out
                                        18  a server can't listen
                                        19  nothing is held under the token
                                        20  the held version is kept no longer
                                        21  the copy holds nothing
";

const VERSION: &str = "hub 0.1.0, hub.db of format 2, copy.db of format 2\n";

// The words of a command, as its usage shows them.
struct Usage {
    command: &'static str,
    text: &'static str,
}

static USAGES: [Usage; 16] = [
    Usage {
        command: "publish",
        text: "usage: hub [--store DIR] [--folder DIR] [--keep N] publish FEED=DIR ..\n",
    },
    Usage {
        command: "show",
        text: "usage: hub [--folder DIR] show KIND\n",
    },
    Usage {
        command: "grant",
        text: "usage: hub [--store DIR] [--folder DIR] [--keep N] grant FILE\n",
    },
    Usage {
        command: "ask",
        text: "usage: hub [--store DIR] [--folder DIR] [--keep N] ask FILE\n",
    },
    Usage {
        command: "serve",
        text: "usage: hub [--store DIR] [--folder DIR] [--keep N] serve CONNECTIONS ADDRESS .. FEED=DIR ..\n",
    },
    Usage {
        command: "sync",
        text: "usage: hub [--store DIR] [--peer HOST:PORT] sync TOKEN LIMIT TRIES\n",
    },
    Usage {
        command: "delta",
        text: "usage: hub [--store DIR] [--peer HOST:PORT] delta TOKEN LIMIT TRIES\n",
    },
    Usage {
        command: "cascade",
        text: "usage: hub [--store DIR] [--keep N] cascade FEED\n",
    },
    Usage {
        command: "follow",
        text: "usage: hub [--store DIR] [--peer HOST:PORT] [--keep N] follow TOKEN LIMIT TRIES FEED\n",
    },
    Usage {
        command: "list",
        text: "usage: hub [--store DIR] list KIND\n",
    },
    Usage {
        command: "export",
        text: "usage: hub [--store DIR] [--folder DIR] export KIND [since DIR]\n   or: hub export manifest bulk|delta\n",
    },
    Usage {
        command: "enter",
        text: "usage: hub [--store DIR] [--folder DIR] enter put KIND ID FILE\n   or: hub [--store DIR] enter delete KIND ID\n",
    },
    Usage {
        command: "send",
        text: "usage: hub [--store DIR] [--peer HOST:PORT] send TOKEN TRIES\n",
    },
    Usage {
        command: "outbox",
        text: "usage: hub [--store DIR] outbox\n",
    },
    Usage {
        command: "rehearse",
        text: "usage: hub [--folder DIR] rehearse FILE\n",
    },
    Usage {
        command: "make",
        text: "usage: hub make SCHOOLS\n",
    },
];

const ANY_USAGE: &str =
    "usage: hub [--store DIR] [--folder DIR] [--peer HOST:PORT] [--keep N] COMMAND ..\n";

// The usage of a command.
fn usage_of(command: &str) -> Option<&'static str> {
    for usage in &USAGES {
        if command == usage.command {
            return Some(usage.text);
        }
    }
    None
}

// The usage of the command that the words name first, or of any.
fn usage_among(words: &[String]) -> &'static str {
    for word in words {
        if let Some(usage) = usage_of(word.as_str()) {
            return usage;
        }
    }
    ANY_USAGE
}

// Whether a word asks for help.
fn asks_for_help(word: &str) -> bool {
    word == "--help" || word == "-h" || word == "help"
}

// What words that ask for help alone, or behind a command, are answered with.
fn help_for(words: &[String]) -> Option<&'static str> {
    match words {
        [word] if asks_for_help(word.as_str()) => Some(HELP),
        [command, word] if asks_for_help(word.as_str()) => usage_of(command.as_str()),
        _ => None,
    }
}

// The words behind the program's name.
fn words_of<R: Env + AllocGlobal>(rt: &R) -> io::Result<Vec<String>> {
    Ok(env::args(rt)?.skip(1).collect(rt.alloc())?)
}

// The answer where the words could not be read: one of them is no text, or memory ran out.
fn answer_unread(error: &io::Error, out: &mut impl Sink) -> u8 {
    match error.kind() {
        ErrorKind::InvalidData => print(out, statuses::BAD_WORDS, "bad word 0\n"),
        _ => print(out, statuses::NO_MEMORY, lines::NO_MEMORY),
    }
}

// Runs the words, unless they ask for help or for the version.
fn run<R: Threads + Wait + Sync>(
    threads: &R,
    rt: HostRuntime,
    words: &[String],
    out: &mut impl Sink,
) -> u8 {
    if let Some(help) = help_for(words) {
        return print(out, statuses::DONE, help);
    }
    match words {
        [word] if word.as_str() == "--version" => print(out, statuses::DONE, VERSION),
        _ if names_serve(rt.alloc(), words) => serve_real(threads, rt, rt.alloc(), words, out),
        _ => run_real(rt, rt.alloc(), words, out),
    }
}

// Says on standard error which word is bad, and what was wanted. The line on standard output already names the place of
// the word; where standard error can't be written, the status stays as it is.
fn hint(rt: HostRuntime, status: u8, words: &[String]) {
    if status != statuses::BAD_WORDS {
        return;
    }
    if let Some(place) = bad_place(rt.alloc(), words) {
        let _ = match words.get(place) {
            Some(word) => eprintln!(rt; "the word {word} can't stand there"),
            None => eprintln!(rt; "a word is missing at the end"),
        };
    }
    let usage = usage_among(words);
    let _ = eprintln!(rt;
        "{usage}words are counted from 0; options stand before the command; hub --help explains all"
    );
}

fn main(rt: HostRuntime) -> ExitCode {
    let mut out = IoSink::new(io::writer(&rt));
    match words_of(&rt) {
        Ok(words) => {
            let status = run(&rt, rt, words.as_slice(), &mut out);
            hint(rt, status, words.as_slice());
            ExitCode::from(status)
        }
        Err(error) => {
            let status = answer_unread(&error, &mut out);
            hint(rt, status, &[]);
            ExitCode::from(status)
        }
    }
}

//! Tables of the options: the arguments of each program, with their lines in the help, and the values of each option in
//! words. An option has a row in the first table of its program, and one in the second if it takes a value.
//!
//! CONTRIBUTING.md has the steps to add an option of `coap-client`. To add one of `coap-server`, put it last in the
//! usage line, and read its value last. Bad values are reported in this order.
//!
//! 1. Add a row to `install/options.tsv` (columns: `install/completions.py`). If two options exclude each other, the
//!    upper row has it.
//! 2. `ServerPlan`, `ServerValues`, `server_values`, `server_plan`; definitions `server_app`, `values_said`,
//!    `ServerPlanValue`, `with_mode` (`ServerWords.antt`), `server_value` (`PlanViews.antt`).
//! 3. If it excludes or needs another one: `excludes_mode`, `excludes_record` or `excludes_application`, and the text
//!    in `script_clash`, `stdio_clash`, `listener_clash` or `alone_clash` (`reasons.rt`, `Reasons.antt`).
//! 4. Its use in `program_server`. If it is a limit: `Limits` (`coap_conn`) or `Config` (`coap_model`) with builders,
//!    definitions and views, `planned` (`program_server_common`), and for C `settings.rt` and `include/dachreup.h`.
//! 5. If a replay depends on it: `numbers` (`header.rt`) and `options_text` of `program_server_common`,
//!    `replay_config` and the proof `OptionWalk.antt` of `program_explain`.
//! 6. `tell_server` (`test_rows/src/command_line.rt`) and `reported_server` (`tests/harness/layers/words.py`).
//! 7. Rows `words/server_plans` and `server_faults`; `tests/system/program/server_arguments.py`; mutants.
//! 8. The manual (SYNOPSIS, list, DIAGNOSTICS), docs/DEPLOYING.md, docs/DECISIONS.md, CHANGELOG.md.
//!
//! `coap-directory` has plans and tables of its own for the options that both have.

/// Version of the programs.
pub const VERSION: &str = "0.1.0";

pub(super) const ABOUT_SERVER: &str = "A CoAP server over TCP (RFC 8323)";

pub(super) const ABOUT_CLIENT: &str = "A CoAP client over TCP (RFC 8323)";

pub(super) const ABOUT_EXPLAIN: &str = "Explains a record of coap-server: its events and messages";

pub(super) const ABOUT_DIRECTORY: &str = "A CoRE resource directory over TCP (RFC 9176)";

// ---- arguments, in the order of the help

const LOG_HELP: &str =
    "Log on standard error: 0 nothing, 1 warnings, 2 also connections, 3 also messages [default: 0]";

const ADDRESS_HELP: &str = "Numeric IP address to listen on [default: 0.0.0.0]";

const PORT_HELP: &str = "Port to listen on, 1 to 65535 [default: 5683]";

const CONNECTIONS_HELP: &str = "Connections at the same time, 1 to 256 [default: 16]";

const IDLE_HELP: &str =
    "Seconds until a silent connection is closed, 0 to 4294967295 (0: never) [default: 0]";

const RECORD_LIMIT_HELP: &str =
    "Size in bytes at which a record ends, 1 to 18446744073709551615 [default: 1073741824]";

/// Form of an argument.
#[derive(Clone, Copy)]
pub enum Form {
    /// Short option with this letter, and the name of its value.
    Letter(char, &'static str),
    /// Short option with this letter and no value.
    LetterFlag(char),
    /// Long option with this word after its hyphens, and the name of its value.
    Word(&'static str, &'static str),
    /// Long option that may be given several times: the word after its hyphens, and the name of its value.
    RepeatedWord(&'static str, &'static str),
    /// Long option with this word after its hyphens and no value.
    WordFlag(&'static str),
    /// Required argument that is no option.
    Required,
}

/// Row of a table of arguments: the name of the argument, its form, and its line in the help.
pub type ArgumentRow = (&'static str, Form, &'static str);

/// Arguments of `coap-server`.
pub const SERVER: &[ArgumentRow] = &[
    ("-A", Form::Letter('A', "ADDRESS"), ADDRESS_HELP),
    ("-p", Form::Letter('p', "PORT"), PORT_HELP),
    (
        "-d",
        Form::Letter('d', "MAX"),
        "Resources that clients may create, 0 to 1000 [default: 0]",
    ),
    (
        "--stdio",
        Form::WordFlag("stdio"),
        "Serve one connection over standard input and output",
    ),
    (
        "--script",
        Form::Word("script", "FILE"),
        "Run the script in FILE (- for standard input); not with --stdio",
    ),
    (
        "--max-message",
        Form::Word("max-message", "N"),
        "Largest accepted message in bytes, 1152 to 1048576 [default: 65536]",
    ),
    (
        "--max-sent",
        Form::Word("max-sent", "N"),
        "Largest sent message in bytes, 1152 to 65536 [default: 65536]",
    ),
    (
        "--queue",
        Form::Word("queue", "N"),
        "Output queue of a connection in bytes, --max-sent to 4194304 [default: 131072]",
    ),
    (
        "--pending",
        Form::Word("pending", "N"),
        "Pending responses of a connection, 0 to 256 [default: 16]",
    ),
    (
        "--observers",
        Form::Word("observers", "N"),
        "Observers of a connection, 0 to 256 [default: 16]",
    ),
    (
        "--connections",
        Form::Word("connections", "N"),
        CONNECTIONS_HELP,
    ),
    (
        "--turns",
        Form::Word("turns", "N"),
        "Iterations until the server ends, 1 to 1000000000000 [default: 1000000000000]",
    ),
    ("--log", Form::Word("log", "LEVEL"), LOG_HELP),
    ("--idle", Form::Word("idle", "SECONDS"), IDLE_HELP),
    (
        "--starts",
        Form::Word("starts", "N,N,N"),
        "Start values of --stdio or --script: MOMENT,VERSIONS,IDS [default: 0,0,0]",
    ),
    (
        "--record",
        Form::Word("record", "FILE"),
        "Write all events to the new file FILE (- for standard output), as a script for --script",
    ),
    (
        "--record-limit",
        Form::Word("record-limit", "N"),
        RECORD_LIMIT_HELP,
    ),
    (
        "--application",
        Form::RepeatedWord("application", "ENTRY"),
        "Entry of the application of --script: PATH;METHODS;ATTRIBUTES (up to 16 times)",
    ),
];

/// Arguments of `coap-client`.
pub const CLIENT: &[ArgumentRow] = &[
    (
        "-m",
        Form::Letter('m', "METHOD"),
        "Method: get, put, post or delete [default: get]",
    ),
    (
        "-e",
        Form::Letter('e', "TEXT"),
        "Payload, percent-decoded; not with -f",
    ),
    (
        "-f",
        Form::Letter('f', "FILE"),
        "Payload in FILE (- for standard input), at most 1048576 bytes; not with -e",
    ),
    (
        "-o",
        Form::Letter('o', "FILE"),
        "Write payloads to FILE (- for standard output) [default: -]",
    ),
    (
        "-t",
        Form::Letter('t', "FORMAT"),
        "Content-Format of the payload: 0 to 65535, or a name such as text/plain",
    ),
    (
        "-A",
        Form::Letter('A', "FORMAT"),
        "Accept option: 0 to 65535, or a name such as text/plain",
    ),
    (
        "-s",
        Form::Letter('s', "SECONDS"),
        "Observe for this number of seconds, 0 to 4294967295; only with get",
    ),
    (
        "-B",
        Form::Letter('B', "SECONDS"),
        "Seconds to wait for a response, 1 to 4294967295 [default: 90]",
    ),
    (
        "-O",
        Form::Letter('O', "NUM,TEXT"),
        "Another option: NUM is 0 to 65535; TEXT has at most 1034 bytes, hexadecimal after 0x",
    ),
    ("-U", Form::LetterFlag('U'), "Send no Uri-Host"),
    (
        "-w",
        Form::LetterFlag('w'),
        "Write a newline after each payload",
    ),
    ("--log", Form::Word("log", "LEVEL"), LOG_HELP),
    (
        "URI",
        Form::Required,
        "Target, coap+tcp://HOST[:PORT][/PATH][?QUERY] [default port: 5683]",
    ),
];

/// Arguments of `coap-explain`.
pub const EXPLAIN: &[ArgumentRow] = &[
    (
        "--connection",
        Form::Word("connection", "ID"),
        "Print only the lines of this connection, 1 to 18446744073709551615",
    ),
    (
        "FILE",
        Form::Required,
        "Record of coap-server, or script (- for standard input)",
    ),
];

/// Arguments of `coap-directory`.
pub const DIRECTORY: &[ArgumentRow] = &[
    ("-A", Form::Letter('A', "ADDRESS"), ADDRESS_HELP),
    ("-p", Form::Letter('p', "PORT"), PORT_HELP),
    (
        "--connections",
        Form::Word("connections", "N"),
        CONNECTIONS_HELP,
    ),
    (
        "--registrations",
        Form::Word("registrations", "N"),
        "Registrations at the same time, 1 to 100000 [default: 1000]",
    ),
    ("--log", Form::Word("log", "LEVEL"), LOG_HELP),
    ("--idle", Form::Word("idle", "SECONDS"), IDLE_HELP),
    (
        "--record",
        Form::Word("record", "FILE"),
        "Write all events to the new file FILE (- for standard output), as a script for coap-server",
    ),
    (
        "--record-limit",
        Form::Word("record-limit", "N"),
        RECORD_LIMIT_HELP,
    ),
];

// ---- values in words, for the reason of an error

/// Row of a table of options: the name of an option, and the values that it takes.
pub type ValueRow = (&'static str, &'static str);

/// Values of a content format.
const FORMAT: &str = "a number from 0 to 65535 or a name such as application/json";

/// Values of `--starts`.
const STARTS: &str =
    "three numbers MOMENT,VERSIONS,IDS from 0 to 18446744073709551615 (IDS to 18446744073709551614)";

/// Values of `--application`.
pub(super) const ENTRY: &str =
    "PATH;METHODS;ATTRIBUTES of an entry (at most 16, with different paths, none built in)";

/// Values of `--log`.
const LEVEL: &str = "a level from 0 to 3";

/// Options of `coap-server`. The minimum of `--queue` depends on `--max-sent`, and `--application` has several
/// values, so the table does not have them.
pub const SERVER_VALUES: &[ValueRow] = &[
    ("-A", "a numeric IPv4 or IPv6 address"),
    ("-p", "a port from 1 to 65535"),
    ("-d", "0 to 1000 resources"),
    ("--max-message", "1152 to 1048576 bytes"),
    ("--max-sent", "1152 to 65536 bytes"),
    ("--pending", "0 to 256 responses"),
    ("--observers", "0 to 256 observers"),
    ("--connections", "1 to 256 connections"),
    ("--turns", "1 to 1000000000000 turns"),
    ("--log", LEVEL),
    ("--idle", "0 to 4294967295 seconds"),
    ("--starts", STARTS),
    ("--record", "the name of a file"),
    ("--record-limit", "1 to 18446744073709551615 bytes"),
];

/// Options of `coap-explain`.
pub const EXPLAIN_VALUES: &[ValueRow] = &[(
    "--connection",
    "the number of a connection from 1 to 18446744073709551615",
)];

/// Options of `coap-directory`.
pub const DIRECTORY_VALUES: &[ValueRow] = &[
    ("-A", "a numeric IPv4 or IPv6 address"),
    ("-p", "a port from 1 to 65535"),
    ("--connections", "1 to 256 connections"),
    ("--registrations", "1 to 100000 registrations"),
    ("--log", LEVEL),
    ("--idle", "0 to 4294967295 seconds"),
    ("--record", "the name of a file"),
    ("--record-limit", "1 to 18446744073709551615 bytes"),
];

/// Options of `coap-client`.
pub const CLIENT_VALUES: &[ValueRow] = &[
    ("-m", "get, put, post or delete"),
    ("-t", FORMAT),
    ("-A", FORMAT),
    ("-s", "0 to 4294967295 seconds"),
    ("-B", "1 to 4294967295 seconds"),
    (
        "-O",
        "a number from 0 to 65535, a comma and at most 1034 bytes (hexadecimal after 0x)",
    ),
    ("--log", LEVEL),
];

//! The header of a record: the version, the options that are in force, and a command line that replays the record.

ghost use Rattle.std.specs.Prelude.{◌≡◌, ◌++◌, map, true, IfOk, OnOk, decimal};
ghost use Rattle.std.specs.List.{flat_map, list_all};
ghost use Rattle.coap_command_line.specs.declared.arguments.tables.TheConstants.{VERSION};
ghost use Rattle.coap_model.specs.Configs.{ConfigValues};
ghost use Rattle.coap_print.specs.Texts.{is_text};
ghost use Rattle.coap_record.specs.Prelude.{SaysNoEvent};
ghost use Rattle.program_server_common.specs.RecordHeaders.{entry_text, header_text, numbers_text, options_text};
ghost use Rattle.program_server_common.specs.RecordHeaders.{words_are_text};
ghost use Rattle.program_server_common.specs.RecordHeaders as spec;

use coap_command_line::VERSION;
use coap_model::Config;
use coap_text::decimal_digits;
use std::alloc::{AllocError, Global};

/// Returns the header of the record with this name, of a program whose server has this configuration, and whose
/// application answers these entries. Each of its lines is a comment.
///
/// # Errors
///
/// Returns `AllocError` if allocation fails.
///
/// # Preconditions
///
/// The name of the program and the entries are printable ASCII.
pub fn header(
    alloc: Global,
    program: &str,
    name: &str,
    config: &Config,
    entries: &[&str],
) -> Result<Vec<u8>, AllocError>
    requires program { is_text program.now ≡ true }
    requires entries { is_text (flat_map (λ e. e.now) entries.now) ≡ true }
    ensures text { IfOk result (λ text. text.items
        ≡ header_text program.now VERSION.now name.now config.now (map (λ e. e.now) entries.now)) }
    ensures comments { IfOk result (λ text. SaysNoEvent text.items) }
{
    let options = options(alloc, config)?;
    let mut text = Vec::new(alloc);
    append_header(&mut text, program, name, options.as_slice(), entries)?;
    Ok(text)
}

/// Appends the header of the record with this name, with the options of the configuration.
///
/// # Errors
///
/// Returns `AllocError` if allocation fails.
#[tactic(auto, unfolding(crate::specs::RecordHeaders::header_text))]
fn append_header(
    text: &mut Vec<u8>,
    program: &str,
    name: &str,
    options: &[u8],
    entries: &[&str],
) -> Result<(), AllocError>
    ensures { (c : ConfigValues) → options.now ≡ options_text c → OnOk result (text.new.items
        ≡ text.old.items ++ header_text program.now VERSION.now name.now c (map (λ e. e.now) entries.now)) }
{
    append(
        text,
        &[
            b"# Record of ",
            program.as_bytes(),
            b" ",
            VERSION.as_bytes(),
            b", format 1\n",
        ],
    )?;
    append(text, &[b"# options: ", options])?;
    append_entries(text, b"", entries)?;
    append(
        text,
        &[
            b"\n# replay: coap-server --script ",
            shown_name(name.as_bytes()),
            b" ",
            options,
        ],
    )?;
    append_entries(text, b"'", entries)?;
    append(text, &[b"\n"])
}

/// Appends the options for the entries that an application answers, each entry between two copies of `quote`.
///
/// # Errors
///
/// Returns `AllocError` if allocation fails.
fn append_entries(text: &mut Vec<u8>, quote: &[u8], entries: &[&str]) -> Result<(), AllocError>
    ensures { OnOk result (text.new.items
        ≡ text.old.items ++ flat_map (λ entry. entry_text quote.now entry.now) entries.now) }
{
    for entry in entries {
        append_entry(text, quote, entry)?;
    }
    Ok(())
}

/// Appends the option for an entry.
///
/// # Errors
///
/// Returns `AllocError` if allocation fails.
fn append_entry(text: &mut Vec<u8>, quote: &[u8], entry: &str) -> Result<(), AllocError>
    ensures { OnOk result (text.new.items ≡ text.old.items ++ entry_text quote.now entry.now) }
{
    append(text, &[b" --application ", quote, entry.as_bytes(), quote])
}

/// Returns the options on which a replay depends, in the order of the usage line.
///
/// # Errors
///
/// Returns `AllocError` if allocation fails.
fn options(alloc: Global, config: &Config) -> Result<Vec<u8>, AllocError>
    ensures text { IfOk result (λ text. text.items ≡ options_text config.now) }
    ensures printable { IfOk result (λ text. is_text text.items ≡ true) }
{
    let mut text = Vec::new(alloc);
    append_numbers(&mut text, &numbers(config))?;
    Ok(text)
}

/// Returns the options on which a replay depends, in the order of the usage line: the words before each number, and the
/// number. The last three are the values at which the counts of a server begin.
#[tactic(auto, unfolding(crate::specs::RecordHeaders::options_text))]
fn numbers(config: &Config) -> [(&'static str, u64); 10]
    ensures text { numbers_text result ≡ options_text config.now }
    ensures printable { words_are_text result ≡ true }
{
    let limits = config.limits();
    let starts = config.starts();
    [
        ("-d ", config.dynamic_max() as u64),
        (" --max-message ", limits.max_message() as u64),
        (" --max-sent ", limits.max_sent() as u64),
        (" --queue ", limits.queue() as u64),
        (" --pending ", limits.pending() as u64),
        (" --observers ", limits.observers() as u64),
        (" --connections ", config.connections() as u64),
        (" --starts ", starts.moment),
        (",", starts.versions),
        (",", starts.ids),
    ]
}

/// Appends the words and the number of each row.
///
/// # Errors
///
/// Returns `AllocError` if allocation fails.
fn append_numbers(text: &mut Vec<u8>, mut rows: &[(&str, u64)]) -> Result<(), AllocError>
    requires words { words_are_text rows.now ≡ true }
    requires front { is_text text.old.items ≡ true }
    ensures text { OnOk result (text.new.items ≡ text.old.items ++ numbers_text rows.entry.now) }
    ensures printable { OnOk result (is_text text.new.items ≡ true) }
{
    while let [row, rest @ ..] = rows {
        append_number(text, row.0.as_bytes(), row.1)?;
        rows = rest;
    }
    Ok(())
}

/// Appends words and a number in decimal digits.
///
/// # Errors
///
/// Returns `AllocError` if allocation fails.
fn append_number(text: &mut Vec<u8>, words: &[u8], number: u64) -> Result<(), AllocError>
    ensures text { OnOk result (text.new.items ≡ text.old.items ++ words.now ++ decimal number) }
    ensures printable { is_text words.now ≡ true → is_text text.old.items ≡ true →
        OnOk result (is_text text.new.items ≡ true) }
{
    let digits = decimal_digits(number);
    append(text, &[words, digits.as_slice()])
}

/// Appends the bytes of all slices, in order.
///
/// # Errors
///
/// Returns `AllocError` if allocation fails.
fn append(text: &mut Vec<u8>, pieces: &[&[u8]]) -> Result<(), AllocError>
    ensures { OnOk result (text.new.items ≡ text.old.items ++ flat_map (λ p. p.now) pieces.now) }
{
    for piece in pieces {
        text.extend_from_slice(piece)?;
    }
    Ok(())
}

/// Returns the name of a file if it is a word of a command line, otherwise the word FILE.
fn shown_name(name: &[u8]) -> &[u8]
    ensures { result.now ≡ spec.shown_name name.now }
{
    if is_word(name) { name } else { b"FILE" }
}

/// Returns `true` if a name is a word of a command line: it needs no quotes and is no option.
fn is_word(name: &[u8]) -> bool
    ensures { result ≡ spec.is_word name.now }
{
    let Some(first) = name.first() else {
        return false;
    };
    *first != b'-' && are_plain(name)
}

/// Returns `true` if each byte means itself in each command line.
fn are_plain(bytes: &[u8]) -> bool
    ensures { result ≡ list_all spec.is_plain bytes.now }
{
    bytes.iter().all(|byte| is_plain(*byte))
}

/// Returns `true` if a byte means itself in each command line: a letter, a digit, or one of `. _ / + -`.
fn is_plain(byte: u8) -> bool
    ensures { result ≡ spec.is_plain byte }
{
    byte.is_ascii_alphanumeric()
        || byte == b'.'
        || byte == b'_'
        || byte == b'/'
        || byte == b'+'
        || byte == b'-'
}

//! The arguments of the program `dnsview`, and what they ask for.
ghost use Rattle.std.specs.Prelude.{◌≡◌, ◌<◌, length, IfSome};
ghost use Rattle.std.specs.Option.{option_copied};
ghost use Rattle.dnsview_tool.specs.Requests.{asked, contrary_option, file_index, file_of, first_file, form_of, dig_option, has, is_dig, is_file, is_full, is_help, is_html, is_json, is_option, is_plain, is_short, is_unknown, is_version, full_option, plain_option, second_file, unknown_option, wrong_word};

/// What the program prints of a message.
#[derive(Clone, Copy)]
pub(crate) enum Form {
    /// Its rows as text.
    Text,
    /// Its rows as a page of HTML.
    Page,
    /// Its records as lines of a zone file.
    Lines,
    /// All of it as a JSON object.
    Json,
    /// All of it as `dig` prints it.
    Dig,
}

/// What the arguments ask for.
#[derive(Clone, Copy)]
pub(crate) enum Request {
    Help,
    Version,
    View(Form),
    /// Nothing: an argument is wrong, which `wrong_word` returns.
    Wrong,
}

impl Request {
    /// What the arguments ask for: help if one of them does, else the version if one does.
    pub(crate) fn of_words(words: &[String]) -> Self
        ensures { result ≡ asked words.now }
    {
        if asks_help(words) {
            Request::Help
        } else if asks_version(words) {
            Request::Version
        } else if wrong_word(words).is_some() {
            Request::Wrong
        } else {
            Request::View(Form::of_words(words))
        }
    }
}

impl Form {
    fn of_words(words: &[String]) -> Self
        ensures { result ≡ form_of words.now }
    {
        if asks_html(words) {
            Form::Page
        } else if asks_short(words) {
            Form::Lines
        } else if asks_json(words) {
            Form::Json
        } else if asks_dig(words) {
            Form::Dig
        } else {
            Form::Text
        }
    }
}

/// The first argument that the program doesn't know, or else the second file, or else one of
/// `--html`, `--short`, `--json` and `--dig` beside another, the one that stands later here.
pub(crate) fn wrong_word(words: &[String]) -> Option<&String>
    ensures { option_copied result ≡ wrong_word words.now }
{
    let unknown = unknown_option(words);
    if unknown.is_some() {
        return unknown;
    }
    let second = second_file(words);
    if second.is_some() {
        return second;
    }
    contrary_option(words)
}

/// The file that a view is asked of, if the arguments name one. It may be `-`, which is standard
/// input.
pub fn file_of(words: &[String]) -> Option<&String>
    ensures { option_copied result ≡ file_of words.now }
{
    match Request::of_words(words) {
        Request::View(_) => first_file(words),
        _ => None,
    }
}

fn asks_help(words: &[String]) -> bool
    ensures { result ≡ has is_help words.now }
{
    words.iter().any(|word| is_help(word.as_str()))
}

fn asks_version(words: &[String]) -> bool
    ensures { result ≡ has is_version words.now }
{
    words.iter().any(|word| is_version(word.as_str()))
}

fn asks_html(words: &[String]) -> bool
    ensures { result ≡ has is_html words.now }
{
    words.iter().any(|word| is_html(word.as_str()))
}

fn asks_short(words: &[String]) -> bool
    ensures { result ≡ has is_short words.now }
{
    words.iter().any(|word| is_short(word.as_str()))
}

fn asks_json(words: &[String]) -> bool
    ensures { result ≡ has is_json words.now }
{
    words.iter().any(|word| is_json(word.as_str()))
}

fn asks_dig(words: &[String]) -> bool
    ensures { result ≡ has is_dig words.now }
{
    words.iter().any(|word| is_dig(word.as_str()))
}

/// The first option that asks for another form than the one that is printed: one without markup if
/// `--html` is given too, else `--json` or `--dig` if `--short` is, else `--dig` if `--json` is.
fn contrary_option(words: &[String]) -> Option<&String>
    ensures { option_copied result ≡ contrary_option words.now }
{
    if asks_html(words) {
        plain_option(words)
    } else if asks_short(words) {
        full_option(words)
    } else if asks_json(words) {
        dig_option(words)
    } else {
        None
    }
}

/// The first `--short`, `--json` or `--dig`.
fn plain_option(words: &[String]) -> Option<&String>
    ensures { option_copied result ≡ plain_option words.now }
{
    words.iter().find(|word| is_plain(word.as_str()))
}

/// The first `--json` or `--dig`.
fn full_option(words: &[String]) -> Option<&String>
    ensures { option_copied result ≡ full_option words.now }
{
    words.iter().find(|word| is_full(word.as_str()))
}

/// The first `--dig`.
fn dig_option(words: &[String]) -> Option<&String>
    ensures { option_copied result ≡ dig_option words.now }
{
    words.iter().find(|word| is_dig(word.as_str()))
}

/// The first option that the program doesn't know.
fn unknown_option(words: &[String]) -> Option<&String>
    ensures { option_copied result ≡ unknown_option words.now }
{
    words.iter().find(|word| is_unknown(word.as_str()))
}

fn first_file(words: &[String]) -> Option<&String>
    ensures { option_copied result ≡ first_file words.now }
{
    words.iter().find(|word| is_file(word.as_str()))
}

fn second_file(words: &[String]) -> Option<&String>
    ensures { option_copied result ≡ second_file words.now }
{
    match file_index(words) {
        Some(first) => first_file(&words[first + 1..]),
        None => None,
    }
}

/// The index of the first file.
fn file_index(words: &[String]) -> Option<usize>
    ensures value { result ≡ file_index words.now }
    ensures within { IfSome result (λ index. index < length words.now) }
{
    words.iter().position(|word| is_file(word.as_str()))
}

fn is_help(word: &str) -> bool
    ensures { result ≡ is_help word.now }
{
    word == "--help" || word == "-h"
}

fn is_version(word: &str) -> bool
    ensures { result ≡ is_version word.now }
{
    word == "--version"
}

fn is_html(word: &str) -> bool
    ensures { result ≡ is_html word.now }
{
    word == "--html"
}

fn is_short(word: &str) -> bool
    ensures { result ≡ is_short word.now }
{
    word == "--short"
}

fn is_json(word: &str) -> bool
    ensures { result ≡ is_json word.now }
{
    word == "--json"
}

fn is_dig(word: &str) -> bool
    ensures { result ≡ is_dig word.now }
{
    word == "--dig"
}

/// Whether a word asks for a form of the whole message without markup: `--json` or `--dig`.
fn is_full(word: &str) -> bool
    ensures { result ≡ is_full word.now }
{
    is_json(word) || is_dig(word)
}

/// Whether a word asks for a form without markup: `--short`, `--json` or `--dig`.
fn is_plain(word: &str) -> bool
    ensures { result ≡ is_plain word.now }
{
    is_short(word) || is_full(word)
}

/// Whether a word is an option: it begins with `-` and isn't `-` alone.
fn is_option(word: &str) -> bool
    ensures { result ≡ is_option word.now }
{
    word.len() > 1 && word.as_bytes()[0] == b'-'
}

/// Whether a word names a file.
fn is_file(word: &str) -> bool
    ensures { result ≡ is_file word.now }
{
    !is_option(word)
}

/// Whether a word is an option that the program doesn't know.
fn is_unknown(word: &str) -> bool
    ensures { result ≡ is_unknown word.now }
{
    is_option(word) && !is_help(word) && !is_version(word) && !is_html(word) && !is_plain(word)
}

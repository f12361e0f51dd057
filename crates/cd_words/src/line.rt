ghost use Rattle.std.specs.Prelude.{◌≡◌, ◌<◌, map, IfOk, IfErr, string_bytes, option_map, Some, None};
ghost use Rattle.cd_block.specs.Parsing as parsing;
ghost use Rattle.cd_words.specs.Lines as spec;
ghost use Rattle.cd_words.specs.Lines.{said_by, nothing_said};
ghost use Rattle.cd_words.specs.Views.{given_in, line_in, said_now, said_after, IsRefused};

use crate::fault::WordFault;
use crate::names::{CommandName, OptionName};
use std::alloc::Global;

/// An option with its value.
#[derive(Clone, Copy)]
pub struct Given<'a> {
    pub option: OptionName,
    pub value: &'a str,
}

/// A command with its options, in the order of their words.
#[derive(Drop)]
pub struct Line<'a> {
    pub command: CommandName,
    pub given: Vec<Given<'a>>,
}

/// What a word says.
enum Said<'a> {
    /// The value of this option is due.
    Due(OptionName),
    /// The option with its value.
    Given(Given<'a>),
}

/// What stands behind a sign at the front.
fn behind(text: &str, sign: char) -> Option<&str>
    requires { sign < 128 }
    ensures { option_map (λ rest. rest.now) result ≡ parsing.behind sign text.now }
{
    text.strip_prefix(sign)
}

/// What stands before and behind the first such sign.
fn around(text: &str, sign: char) -> Option<(&str, &str)>
    requires { sign < 128 }
    ensures { option_map (λ parts. (parts.0.now, parts.1.now)) result ≡ parsing.around sign text.now }
{
    text.split_once(sign)
}

/// What a word `--name` or `--name=value` says.
fn option_in(word: &str) -> Option<(OptionName, Option<&str>)>
    ensures { option_map (λ o. (o.0, option_map (λ v. v.now) o.1)) result ≡ spec.option_in word.now }
{
    let text = behind(behind(word, '-')?, '-')?;
    match around(text, '=') {
        None => Some((OptionName::of(text)?, None)),
        Some((name, value)) => Some((OptionName::of(name)?, Some(value))),
    }
}

/// Whether a word may be the value of the option before it.
fn is_value(word: &[u8]) -> bool
    ensures { result ≡ spec.is_value word.now }
{
    match word {
        [] | [_] => true,
        [first, ..] => *first != b'-',
    }
}

/// The value of an option, if it is given: the first one.
pub fn value_of<'a>(given: &[Given<'a>], option: OptionName) -> Option<&'a str>
    ensures { option_map (λ v. v.now) result ≡ spec.value_of option (given_in given.now) }
{
    for item in given {
        if item.option.is(option) {
            return Some(item.value);
        }
    }
    None
}

fn is_given(given: &[Given<'_>], option: OptionName) -> bool
    ensures { result ≡ spec.is_given option (given_in given.now) }
{
    value_of(given, option).is_some()
}

fn may_come(command: CommandName, option: OptionName, given: &[Given<'_>]) -> bool
    ensures { result ≡ spec.may_come command option (given_in given.now) }
{
    command.takes(option) && (option.is(OptionName::To) || !is_given(given, option))
}

/// What a word says where no value is due.
fn option_said<'a>(command: CommandName, given: &[Given<'_>], word: &'a str) -> Option<Said<'a>>
    ensures { option_map (said_after (given_in given.now)) result
        ≡ spec.option_said command (given_in given.now) (spec.option_in word.now) }
{
    let (option, value) = option_in(word)?;
    if !may_come(command, option, given) {
        return None;
    }
    match value {
        None => Some(Said::Due(option)),
        Some(value) => Some(Said::Given(Given { option, value })),
    }
}

/// What a word says where the value of an option is due.
fn value_said<'a>(option: OptionName, word: &'a str) -> Option<Said<'a>>
    ensures { (given : spec.Given) → option_map (said_after given) result
        ≡ spec.value_said given option word.now }
{
    if option.is(OptionName::To) || is_value(word.as_bytes()) {
        Some(Said::Given(Given {
            option,
            value: word,
        }))
    } else {
        None
    }
}

/// What a word says.
fn word_said<'a>(
    command: CommandName,
    given: &[Given<'_>],
    due: Option<OptionName>,
    word: &'a str,
) -> Option<Said<'a>>
    ensures { option_map (said_after (given_in given.now)) result
        ≡ said_by command (given_in given.now) due word.now }
{
    match due {
        None => option_said(command, given, word),
        Some(option) => value_said(option, word),
    }
}

/// Takes up what a word says, and tells which option's value is due then.
fn take_up<'a>(said: Said<'a>, given: &mut Vec<Given<'a>>) -> Result<Option<OptionName>, WordFault>
    ensures found { IfOk result (λ due. said_now given.new.items due
        ≡ said_after (given_in given.old.items) said.entry) }
    ensures full { IfErr result (λ fault. fault ≡ WordFault.Memory) }
{
    match said {
        Said::Due(option) => Ok(Some(option)),
        Said::Given(item) => {
            given.push(item)?;
            Ok(None)
        }
    }
}

/// What words say to a command: options with their values, and the option whose value is due.
fn words_said<'a>(
    alloc: Global,
    command: CommandName,
    words: &'a [String],
) -> Result<(Vec<Given<'a>>, Option<OptionName>), WordFault>
    ensures found { IfOk result (λ said. spec.words_said command nothing_said (map string_bytes words.now)
        ≡ Some (said_now said.0.items said.1)) }
    ensures refused { IfErr result (IsRefused (spec.words_said command nothing_said (map string_bytes words.now))) }
{
    let mut given = Vec::new(alloc);
    let mut due = None;
    for word in words {
        let Some(said) = word_said(command, &given, due, word.as_str()) else {
            return Err(WordFault::Usage);
        };
        due = take_up(said, &mut given)?;
    }
    Ok((given, due))
}

/// Whether a command with these options is whole: no value is due, and what it needs is given.
fn is_whole(command: CommandName, given: &[Given<'_>], due: Option<OptionName>) -> bool
    ensures { result ≡ spec.is_whole command (said_now given.now due) }
{
    let has_needed = match command.needs() {
        None => true,
        Some(option) => is_given(given, option),
    };
    due.is_none() && has_needed
}

/// The options that words give to a command.
fn options_of<'a>(
    alloc: Global,
    command: CommandName,
    words: &'a [String],
) -> Result<Vec<Given<'a>>, WordFault>
    ensures found { IfOk result (λ given. spec.options_of command (map string_bytes words.now)
        ≡ Some (given_in given.items)) }
    ensures refused { IfErr result (IsRefused (spec.options_of command (map string_bytes words.now))) }
{
    match words_said(alloc, command, words) {
        Err(fault) => Err(fault),
        Ok((given, due)) => {
            if is_whole(command, &given, due) {
                Ok(given)
            } else {
                Err(WordFault::Usage)
            }
        }
    }
}

/// The line that words are, whatever the values of its options.
pub fn line_of<'a>(alloc: Global, words: &'a [String]) -> Result<Line<'a>, WordFault>
    ensures found { IfOk result (λ line. spec.line_of (map string_bytes words.now) ≡ Some (line_in line)) }
    ensures refused { IfErr result (IsRefused (spec.line_of (map string_bytes words.now))) }
{
    match words {
        [] => Err(WordFault::Usage),
        [word, behind @ ..] => match CommandName::of(word.as_str()) {
            None => Err(WordFault::Usage),
            Some(command) => match options_of(alloc, command, behind) {
                Err(fault) => Err(fault),
                Ok(given) => Ok(Line { command, given }),
            },
        },
    }
}

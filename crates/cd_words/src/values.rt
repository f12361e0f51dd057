ghost use Rattle.std.specs.Prelude.{◌≡◌, ◌++◌, ◌∷◌, [], map, true, IfOk, IfErr, IfSome, MatchOption, string_bytes, option_map};
ghost use Rattle.cd_words.specs.Lines as spec;
ghost use Rattle.cd_words.specs.Lines.{value_of, is_given};
ghost use Rattle.cd_words.specs.Spelling.{HasSpelling};
ghost use Rattle.cd_words.specs.Values.{AreSpelt, IsFirstBad, WorkchainIs, FileIs, IdIs, MaxIs, NumberIs, Spells, HasNeeded};
ghost use Rattle.cd_words.specs.Views.{given_in, line_in};

use crate::command::Command;
use crate::fault::WordFault;
use crate::line::{Given, Line, value_of};
use crate::names::{CommandName, OptionName};
use crate::spelling::{GREATEST_MAX, feed_number, hash, id, is_spelt, max, workchain};
use cd_base::Hash256;
use cd_block::BlockId;
use std::alloc::Global;

/// The first option whose value is none that it may have.
pub fn first_bad(given: &[Given<'_>]) -> Option<OptionName>
    ensures { MatchOption result (AreSpelt (given_in given.now)) (λ option. IsFirstBad option (given_in given.now)) }
{
    for item in given {
        if !is_spelt(item.option, item.value) {
            return Some(item.option);
        }
    }
    None
}

/// The value of an option, if it is given.
fn spelt_value<'a>(given: &[Given<'a>], option: OptionName) -> Option<&'a str>
    requires { AreSpelt (given_in given.now) }
    ensures value { option_map (λ v. v.now) result ≡ value_of option (given_in given.now) }
    ensures spelt { IfSome result (λ v. HasSpelling option v.now) }
{
    value_of(given, option)
}

/// The masterchain, where no workchain is given.
fn workchain_of(given: &[Given<'_>]) -> i32
    requires { AreSpelt (given_in given.now) }
    ensures { WorkchainIs (value_of OptionName.Workchain (given_in given.now)) result }
{
    match spelt_value(given, OptionName::Workchain) {
        None => -1,
        Some(text) => match workchain(text) {
            Some(number) => number as i32,
            None => unreachable!(),
        },
    }
}

/// A hash of zeros, where none is given.
fn file_of(given: &[Given<'_>]) -> Hash256
    requires { AreSpelt (given_in given.now) }
    ensures { FileIs (value_of OptionName.File (given_in given.now)) result }
{
    match spelt_value(given, OptionName::File) {
        None => Hash256([0; 32]),
        Some(text) => match hash(text) {
            Some(hash) => hash,
            None => unreachable!(),
        },
    }
}

fn id_of(given: &[Given<'_>]) -> BlockId
    requires spelt { AreSpelt (given_in given.now) }
    requires given { is_given OptionName.Id (given_in given.now) ≡ true }
    ensures { IdIs (value_of OptionName.Id (given_in given.now)) result }
{
    match spelt_value(given, OptionName::Id) {
        None => unreachable!(),
        Some(text) => match id(text) {
            Some(id) => id,
            None => unreachable!(),
        },
    }
}

/// 2 MiB, where no size is given.
fn max_of(given: &[Given<'_>]) -> u32
    requires { AreSpelt (given_in given.now) }
    ensures { MaxIs (value_of OptionName.Max (given_in given.now)) result }
{
    match spelt_value(given, OptionName::Max) {
        None => GREATEST_MAX,
        Some(text) => match max(text) {
            Some(number) => number,
            None => unreachable!(),
        },
    }
}

fn number_of(given: &[Given<'_>]) -> u64
    requires spelt { AreSpelt (given_in given.now) }
    requires given { is_given OptionName.Number (given_in given.now) ≡ true }
    ensures { NumberIs (value_of OptionName.Number (given_in given.now)) result }
{
    match spelt_value(given, OptionName::Number) {
        None => unreachable!(),
        Some(text) => match feed_number(text) {
            Some(number) => number,
            None => unreachable!(),
        },
    }
}

/// The path of the database, if one is given.
fn db_of(alloc: Global, given: &[Given<'_>]) -> Result<Option<String>, WordFault>
    ensures found { IfOk result (λ db. option_map string_bytes db ≡ value_of OptionName.Db (given_in given.now)) }
    ensures full { IfErr result (λ fault. fault ≡ WordFault.Memory) }
{
    match value_of(given, OptionName::Db) {
        None => Ok(None),
        Some(path) => Ok(Some(String::from_str(alloc, path)?)),
    }
}

/// Adds the path of an option `--to`.
fn push_path(alloc: Global, item: &Given<'_>, paths: &mut Vec<String>) -> Result<(), WordFault>
    ensures found { IfOk result (λ _. map string_bytes paths.new.items
        ≡ map string_bytes paths.old.items ++ spec.paths_of (given_in (item.now ∷ []))) }
    ensures full { IfErr result (λ fault. fault ≡ WordFault.Memory) }
{
    if !item.option.is(OptionName::To) {
        return Ok(());
    }
    paths.push(String::from_str(alloc, item.value)?)?;
    Ok(())
}

/// The paths of `--to`, in their order.
pub fn paths_of(alloc: Global, given: &[Given<'_>]) -> Result<Vec<String>, WordFault>
    ensures found { IfOk result (λ paths. map string_bytes paths.items ≡ spec.paths_of (given_in given.now)) }
    ensures full { IfErr result (λ fault. fault ≡ WordFault.Memory) }
{
    let mut paths = Vec::new(alloc);
    for item in given {
        push_path(alloc, item, &mut paths)?;
    }
    Ok(paths)
}

/// The command of a line whose values were all found to be such as their options may have.
pub fn command_of(alloc: Global, line: &Line<'_>) -> Result<Command, WordFault>
    requires spelt { AreSpelt (given_in line.now.given.items) }
    requires needed { HasNeeded (line_in line.now) }
    ensures found { IfOk result (Spells (line_in line.now)) }
    ensures full { IfErr result (λ fault. fault ≡ WordFault.Memory) }
{
    let given = line.given.as_slice();
    match line.command {
        CommandName::Zero => Ok(Command::Zero {
            workchain: workchain_of(given),
            file: file_of(given),
            db: db_of(alloc, given)?,
        }),
        CommandName::Replay => Ok(Command::Replay {
            db: db_of(alloc, given)?,
            to: paths_of(alloc, given)?,
        }),
        CommandName::Run => Ok(Command::Run {
            db: db_of(alloc, given)?,
            to: paths_of(alloc, given)?,
        }),
        CommandName::Check => Ok(Command::Check {
            db: db_of(alloc, given)?,
        }),
        CommandName::Export => Ok(Command::Export {
            id: id_of(given),
            max: max_of(given),
            db: db_of(alloc, given)?,
            to: paths_of(alloc, given)?,
        }),
        CommandName::Gen => Ok(Command::Gen {
            number: number_of(given),
        }),
        CommandName::Migrate => Ok(Command::Migrate {
            db: db_of(alloc, given)?,
        }),
    }
}

//! What the refusals of a provider and of a client are for a command.
ghost use Rattle.std.specs.Prelude.{◌≡◌, IfOk, IsErr};
ghost use Rattle.clear_sql.specs.AnswerText.{name_in};
ghost use Rattle.command_words.specs.Views.{combine_order};
ghost use Rattle.splinter_status.specs.Phases.{IsOfFiles, StopsAtFiles};
ghost use Rattle.splinter_status.specs.declared.stops.InputStop.TheVariants as input;
ghost use Rattle.splinter_commands.specs.Refusals.{ask_refusal, name_of, provider_refusal, StopsBy};

use client_rounds::{AskFault, Source};
use command_words::CombineWords;
use provider_core::ProviderFault;
use query_reader::{ParamFault, QueryFault};
use spl_values::{Name, Shape};
use spl_words::{Differ, FrameFault, Provider};
use splinter_status::{InputStop, Part, Refusal};
use std::alloc::{AllocError, Global};

/// A copy of a file's name.
fn copied(alloc: Global, name: &str) -> Result<Name, AllocError>
    ensures { IfOk result (λ copy. copy ≡ name.now) }
{
    Ok(Name::from_string(String::from_str(alloc, name)?))
}

/// The name of the column of that number, from 0; empty where there is none.
fn column_name(alloc: Global, shape: &Shape, column: u32) -> Result<Name, AllocError>
    ensures { IfOk result (λ name. name ≡ name_in shape.now.schema.columns column) }
{
    match shape.schema.columns.as_slice().get(column as usize) {
        Some(column) => column.name.clone(),
        None => Ok(Name::from_string(String::new(alloc))),
    }
}

/// The refusal of a provider that has a key file of that name, over a table of that shape.
fn refusal_of_provider(
    alloc: Global,
    provider: Provider,
    key: &str,
    shape: &Shape,
    fault: ProviderFault,
) -> Result<Refusal, AllocError>
    ensures is { IfOk result (λ refusal. refusal ≡ provider_refusal provider key.now shape.now fault) }
    ensures memory { fault ≡ ProviderFault.OutOfMemory → IsErr result }
    ensures kept { IfOk result IsOfFiles }
{
    match fault {
        // A step is never short of memory itself.
        ProviderFault::Frame(FrameFault::OutOfMemory)
        | ProviderFault::Query(QueryFault::OutOfMemory)
        | ProviderFault::OutOfMemory => Err(AllocError),
        ProviderFault::Frame(fault) => Ok(Refusal::Frame(copied(alloc, key)?, fault)),
        ProviderFault::WrongProvider(other) => {
            Ok(Refusal::Differ(Differ::Provider(provider, other)))
        }
        ProviderFault::ShapeDiffers(line) => Ok(Refusal::Differ(Differ::ShapeLine(line))),
        ProviderFault::Query(fault) => Ok(Refusal::Query(fault)),
        ProviderFault::WrongLayout(key) => Ok(Refusal::Differ(Differ::Layout(key))),
        ProviderFault::SumBound(column, at) => Ok(Refusal::SumBound(
            column_name(alloc, shape, column)?,
            column,
            at,
        )),
    }
}

/// The stop of a provider that has a key file of that name, over a table of that shape.
pub fn provider_stop(
    alloc: Global,
    provider: Provider,
    key: &str,
    shape: &Shape,
    fault: ProviderFault,
) -> InputStop
    ensures by { StopsBy (provider_refusal provider key.now shape.now fault) result }
    ensures memory { fault ≡ ProviderFault.OutOfMemory → result ≡ input.OutOfMemory }
    ensures refusals { StopsAtFiles result }
{
    match refusal_of_provider(alloc, provider, key, shape, fault) {
        Ok(refusal) => InputStop::Refused(refusal),
        Err(_) => InputStop::OutOfMemory,
    }
}

/// The name of a file that is judged.
pub fn name_of<'a>(words: &CombineWords<'a>, source: Source) -> &'a str
    ensures { result.now ≡ name_of (combine_order words.now) source }
{
    match source {
        Source::Note => words.note,
        Source::First => words.first,
        Source::Second => words.second,
    }
}

/// The refusal of a client that judges these files.
fn refusal_of_client(
    alloc: Global,
    words: &CombineWords<'_>,
    fault: AskFault,
) -> Result<Refusal, AllocError>
    ensures is { IfOk result (λ refusal. refusal ≡ ask_refusal (combine_order words.now) fault) }
    ensures memory { fault ≡ AskFault.OutOfMemory → IsErr result }
    ensures kept { IfOk result IsOfFiles }
{
    match fault {
        // Judging draws nothing, and a step of it is never short of memory itself.
        AskFault::Query(QueryFault::OutOfMemory)
        | AskFault::Param(ParamFault::OutOfMemory)
        | AskFault::Frame(_, FrameFault::OutOfMemory)
        | AskFault::DrawFault
        | AskFault::OutOfMemory => Err(AllocError),
        AskFault::Query(fault) => Ok(Refusal::Query(fault)),
        AskFault::Param(fault) => Ok(Refusal::Param(fault)),
        AskFault::Frame(source, fault) => {
            Ok(Refusal::Frame(copied(alloc, name_of(words, source))?, fault))
        }
        AskFault::SameProvider(provider) => Ok(Refusal::SameProvider(provider)),
        AskFault::Differ(differ) => Ok(Refusal::Differ(differ)),
        AskFault::BadWord(place, word) => Ok(Refusal::BadWord(place, word)),
        AskFault::NotBuilt(_) => Ok(Refusal::NotBuilt(Part::Plan)),
    }
}

/// The stop of a client that judges these files.
pub fn client_stop(alloc: Global, words: &CombineWords<'_>, fault: AskFault) -> InputStop
    ensures by { StopsBy (ask_refusal (combine_order words.now) fault) result }
    ensures memory { fault ≡ AskFault.OutOfMemory → result ≡ input.OutOfMemory }
    ensures refusals { StopsAtFiles result }
{
    match refusal_of_client(alloc, words, fault) {
        Ok(refusal) => InputStop::Refused(refusal),
        Err(_) => InputStop::OutOfMemory,
    }
}

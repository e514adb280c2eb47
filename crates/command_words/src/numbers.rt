//! Numbers among the words.
ghost use Rattle.std.specs.Prelude.{◌≡◌, ◌≤◌, IfOk, IfSome};
ghost use Rattle.command_words.specs.Forms.{number_in, workers_in, provider_in};
ghost use Rattle.command_words.specs.Views.{IsWorkers, Means};

use crate::fault::FormFault;
use spl_values::{ColumnType, Value, value_of};
use spl_words::Provider;

/// The number between these that one or more decimal digits say. It is read like a value of a column
/// of numbers.
fn number_in(word: &str, least: u64, most: u64) -> Option<u64>
    ensures is { result ≡ number_in least most word.now }
    ensures least { IfSome result (λ n. least ≤ n) }
    ensures most { IfSome result (λ n. n ≤ most) }
{
    match value_of(&ColumnType::Uint(64), word.as_bytes()) {
        Ok(Value::Number(number)) if least <= number && number <= most => Some(number),
        _ => None,
    }
}

/// The number of workers that a word says.
pub fn workers_in(word: &str) -> Result<usize, FormFault>
    ensures is { Means (λ n. n) result (workers_in word.now) }
    ensures bounds { IfOk result IsWorkers }
{
    match number_in(word, 1, 64) {
        Some(number) => Ok(number as usize),
        None => Err(FormFault::Usage),
    }
}

/// The provider whose number a word says.
pub fn provider_in(word: &str) -> Result<Provider, FormFault>
    ensures { Means (λ p. p) result (provider_in word.now) }
{
    match number_in(word, 0, 1) {
        Some(0) => Ok(Provider::Zero),
        Some(_) => Ok(Provider::One),
        None => Err(FormFault::Usage),
    }
}

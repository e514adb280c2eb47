//! The command `trace`: both providers in one process.
ghost use Rattle.std.specs.Prelude.{◌≡◌, [], Ok, Err, IfSome, IfOk, IfErr, IsErrOf};
ghost use Rattle.spl_outside.specs.Causes.{Counts};
ghost use Rattle.spl_words.specs.declared.provider.Provider.TheVariants.{Zero};
ghost use Rattle.sum_bounds.specs.Bounds.{sums_bounded};
ghost use Rattle.provider_core.specs.Asking.{or_sum_fault};
ghost use Rattle.query_reader.specs.Accepted.{IsCheckedFor};
ghost use Rattle.command_words.specs.Views.{trace_order, IsWorkers};
ghost use Rattle.splinter_status.specs.Phases.{InputGives, StopsAtFiles, EndsAtFiles};
ghost use Rattle.splinter_status.specs.declared.stops.Stopped.TheVariants as stopped;
ghost use Rattle.splinter_commands.specs.Commands.{trace_ready, traced};
ghost use Rattle.splinter_commands.specs.Meets.{FilesFailed, Meets, TakesSome};
ghost use Rattle.splinter_commands.specs.Questions.{IsTraced};
ghost use Rattle.splinter_commands.specs.Refusals.{or_provider_refusal};

use crate::refusals::provider_stop;
use crate::rounds::begin;
use crate::sessions::session_text;
use command_words::TraceWords;
use provider_core::ProviderFault;
use query_reader::laws::accepted_has_cells;
use share_eval::Gate;
use spl_outside::{Draw, Files};
use spl_values::Table;
use spl_words::Provider;
use splinter_status::{InputStop, Stopped};
use splinter_steps::{Asked, judge, read_shape, read_table};
use std::alloc::Global;
use std::thread::Threads;
use sum_bounds::check_sums;

/// What is asked, and a table of its schema whose sums are within their bounds.
#[derive(Debug, Drop)]
pub struct Traced {
    /// The query and its parameters.
    pub asked: Asked,
    /// The table that both providers hold.
    pub table: Table,
}

/// Refuses a sum over its bound.
fn check_bounds(alloc: Global, asked: &Asked, table: &Table) -> Result<(), InputStop>
    requires { IsCheckedFor asked.now.checked table.now.shape.schema }
    ensures gives { InputGives (λ bounded. bounded) result (or_provider_refusal Zero [] table.now.shape (or_sum_fault (sums_bounded table.now asked.now.checked.spec.items))) }
    ensures bounded { IfOk result (λ _. sums_bounded table.now asked.now.checked.spec.items ≡ Ok tt) }
    ensures refusals { IfErr result StopsAtFiles }
    ensures no_fault { IsErrOf result InputStop.FileFault → ⊥ }
{
    accepted_has_cells();
    match check_sums(table, asked.checked.spec.items.as_slice()) {
        Ok(()) => Ok(()),
        Err(fault) => Err(provider_stop(
            alloc,
            Provider::Zero,
            "",
            table.shape(),
            ProviderFault::SumBound(fault.column, fault.at),
        )),
    }
}

/// Reads the shape, judges the query and the parameters by it, reads the table, and judges its sums.
#[tactic(auto, unfolding(crate::specs::Commands::trace_ready))]
fn read_traced<F: Files>(
    alloc: Global,
    files: &mut F,
    words: &TraceWords<'_>,
) -> Result<Traced, InputStop>
    ensures gives { IfSome (F.held files.old) (λ m. InputGives traced result (trace_ready (trace_order words.now) m)) }
    ensures traced { IfOk result IsTraced }
    ensures refusals { IfErr result StopsAtFiles }
    ensures stays { F.held files.new ≡ F.held files.old }
    ensures counts { Counts (F.faults files.old) (F.faults files.new) (IsErrOf result InputStop.FileFault) }
{
    let shape = read_shape(alloc, files, words.shape)?;
    let asked = judge(alloc, &shape, words.query, &words.parameters)?;
    let table = read_table(alloc, files, words.table, &shape)?;
    check_bounds(alloc, &asked, &table)?;
    Ok(Traced { asked, table })
}

/// The command, up to the text that it prints.
pub fn trace<T: Threads + Sync, F: Files, R: Draw, G: Gate + Sync>(
    rt: &T,
    alloc: Global,
    files: &mut F,
    draw: &mut R,
    words: &TraceWords<'_>,
    gate: &G,
) -> Result<Vec<u8>, Stopped>
    requires { IsWorkers words.now.workers }
    ensures told { IfSome (F.held files.old) (λ m. Meets (trace_ready (trace_order words.now) m) m (F.held files.new) (R.words draw.old) (R.words draw.new) result) }
    ensures refusals { IfErr result EndsAtFiles }
    ensures stays { F.held files.new ≡ F.held files.old }
    ensures front { TakesSome (R.words draw.old) (R.words draw.new) }
    ensures undrawn { (s : _) → result ≡ Err (stopped.Input s) → draw.new ≡ draw.old }
    ensures no_write { IsErrOf result Stopped.FileFault → ⊥ }
    ensures files { Counts (F.faults files.old) (F.faults files.new) (FilesFailed result) }
    ensures draws { Counts (R.faults draw.old) (R.faults draw.new) (IsErrOf result Stopped.DrawFault) }
{
    let traced = read_traced(alloc, files, words)?;
    let round = begin(alloc, draw, &traced.asked, traced.table.shape())?;
    Ok(session_text(rt, alloc, &traced, &round, words.workers, gate)?)
}

//! The top call.
ghost use Rattle.std.specs.Prelude.{◌≡◌, ◌≢◌, ◌++◌, [], ◌<◌, ◌^◌, List, IfSome, IsErr, Some, None, ℕ};
ghost use Rattle.std.specs.List.{AllByRecursion};
ghost use Rattle.spl_outside.specs.Causes.{Counts};
ghost use Rattle.spl_words.specs.declared.fault.FrameFault.TheVariants as frame;
ghost use Rattle.spl_values.specs.declared.shape_reader.ShapeFault.TheVariants as shape;
ghost use Rattle.query_parser.specs.declared.fault.QueryFault.TheVariants as query;
ghost use Rattle.query_reader.specs.declared.params.ParamFault.TheVariants as param;
ghost use Rattle.csv_tables.specs.declared.fault.TableFault.TheVariants as table;
ghost use Rattle.session_laws.specs.OwnSessions.{Session, IsSession, own_text};
ghost use Rattle.command_words.specs.Orders.{CombineOrder, combine};
ghost use Rattle.splinter_commands.specs.Commands.{DrawsNone, IsSilent, judged};
ghost use Rattle.splinter_commands.specs.HeldSessions.{HoldsSession};
ghost use Rattle.splinter_cli.specs.Runs.{EndsWith, Promises, Ran, order_of};
ghost use Rattle.splinter_status.specs.Ends.{ComesExactlyWhere, CountsAs, EndsAs, Reports};
ghost use Rattle.splinter_status.specs.Texts.{HasLine, line_of};
ghost use Rattle.splinter_status.specs.declared.status.Part.{Part};
ghost use Rattle.splinter_status.specs.declared.status.Part.TheVariants as part;

use share_eval::Gate;
use spl_outside::{Draw, Files, Sink};
use splinter_commands::carry_out;
use splinter_commands::laws::own_sessions_are_combined;
use splinter_status::{Status, print, refuse};
use std::alloc::Global;
use std::thread::Threads;

/// Prints a text, unless it is empty.
fn print_text<O: Sink>(alloc: Global, out: &mut O, text: &[u8]) -> Status
    ensures ends { EndsAs Status.Done result }
    ensures told { IfSome (O.written out.old) (λ w. Reports w text.now Status.Done result (O.written out.new)) }
    ensures counts { Counts (O.faults out.old) (O.faults out.new) (result ≡ Status.OutputFault) }
    ensures silent { text.now ≡ [] → out.new ≡ out.old }
{
    if text.is_empty() {
        Status::Done
    } else {
        print(alloc, out, text, Status::Done)
    }
}

/// Carries the command out, and prints its text or the line of what stopped it.
fn carry_out_and_tell<T: Threads + Sync, F: Files, R: Draw, O: Sink, G: Gate + Sync>(
    rt: &T,
    alloc: Global,
    words: &Vec<String>,
    files: &mut F,
    draw: &mut R,
    out: &mut O,
    gate: &G,
) -> Status
    ensures usage { ComesExactlyWhere (order_of words.now.items ≡ None) Status.Usage result }
    ensures untouched { order_of words.now.items ≡ None → (files.new ≡ files.old) × (draw.new ≡ draw.old) }
    ensures ran { Ran (order_of words.now.items)
        (record { held = F.held files.old; words = R.words draw.old; written = O.written out.old; file_faults = F.faults files.old; draw_faults = R.faults draw.old; output_faults = O.faults out.old })
        (record { held = F.held files.new; words = R.words draw.new; written = O.written out.new; file_faults = F.faults files.new; draw_faults = R.faults draw.new; output_faults = O.faults out.new })
        result }
    ensures line { HasLine result → IfSome (O.written out.old) (λ w. O.written out.new ≡ Some (w ++ line_of result)) }
    ensures undrawn { IfSome (F.held files.old) (λ m. IsErr (judged (order_of words.now.items) m) → draw.new ≡ draw.old) }
    ensures silent { IsSilent (order_of words.now.items) → result ≡ Status.Done → out.new ≡ out.old }
    ensures drawless { DrawsNone (order_of words.now.items) → draw.new ≡ draw.old }
    ensures only_plan { (p : Part) → result ≡ Status.NotBuilt p → p ≡ part.Plan }
    ensures never_inside_query { result ≢ Status.Query query.OutOfMemory }
    ensures never_inside_param { result ≢ Status.Param param.OutOfMemory }
    ensures never_inside_shape { result ≢ Status.Shape shape.OutOfMemory }
    ensures never_inside_table { result ≢ Status.Table table.OutOfMemory }
    ensures never_inside_frame { (name : List ℕ) → result ≢ Status.Frame name frame.OutOfMemory }
{
    match carry_out(rt, alloc, words, files, draw, gate) {
        Ok(text) => print_text(alloc, out, &text),
        Err(stopped) => refuse(alloc, out, stopped),
    }
}

/// Runs the command that the words mean: writes its files, and prints its text or the line of its refusal.
///
/// The words are the command line without the program's name. Steps are taken in their order, and the
/// first refusal ends the command. Where the line of a refusal can't be printed the status is
/// `OutputFault`, or `OutOfMemory`, in its place.
pub fn run<T: Threads + Sync, F: Files, R: Draw, O: Sink, G: Gate + Sync>(
    rt: &T,
    alloc: Global,
    words: &Vec<String>,
    files: &mut F,
    draw: &mut R,
    out: &mut O,
    gate: &G,
) -> Status
    // What the words alone refuse, before anything else is touched.
    ensures usage { ComesExactlyWhere (order_of words.now.items ≡ None) Status.Usage result }
    ensures untouched { order_of words.now.items ≡ None → (files.new ≡ files.old) × (draw.new ≡ draw.old) }

    // What the files refuse, what is drawn, written and printed, and what stays, from what is told of the outside before and after.
    ensures promises { Promises (order_of words.now.items)
        (record { held = F.held files.old; words = R.words draw.old; written = O.written out.old; file_faults = F.faults files.old; draw_faults = R.faults draw.old; output_faults = O.faults out.old })
        (record { held = F.held files.new; words = R.words draw.new; written = O.written out.new; file_faults = F.faults files.new; draw_faults = R.faults draw.new; output_faults = O.faults out.new })
        result }

    // A fault comes only where its object counted one in this call, and where none is told none was counted.
    ensures file_fault { CountsAs Status.FileFault (F.faults files.old) (F.faults files.new) result }
    ensures draw_fault { CountsAs Status.DrawFault (R.faults draw.old) (R.faults draw.new) result }
    ensures output_fault { Counts (O.faults out.old) (O.faults out.new) (result ≡ Status.OutputFault) }

    // Where the files aren't told: what no failed draw changes, and what a line says.
    ensures unwritten { result ≡ Status.DrawFault → F.held files.new ≡ F.held files.old }
    ensures line { HasLine result → IfSome (O.written out.old) (λ w. O.written out.new ≡ Some (w ++ line_of result)) }
    ensures nothing { result ≡ Status.OutOfMemory → IfSome (O.written out.old) (λ w. O.written out.new ≡ Some w) }

    // What is left alone by a command that is refused, or that doesn't draw, or doesn't print.
    ensures undrawn { IfSome (F.held files.old) (λ m. IsErr (judged (order_of words.now.items) m) → draw.new ≡ draw.old) }
    ensures drawless { DrawsNone (order_of words.now.items) → draw.new ≡ draw.old }
    ensures silent { IsSilent (order_of words.now.items) → result ≡ Status.Done → out.new ≡ out.old }

    // A session whose note and answers the files hold ends with its own text, where nothing fails.
    ensures session { IfSome (F.held files.old) (λ m. IfSome (O.written out.old) (λ w.
        (s : Session) (o : CombineOrder) → order_of words.now.items ≡ Some (combine o) → IsSession s → AllByRecursion (λ x. x < 2 ^ 64) s.words → HoldsSession s o m
        → EndsWith (own_text s) result w (O.written out.new))) }

    // What never comes: a part but a plan that isn't built, and want of memory inside a fault.
    ensures only_plan { (p : Part) → result ≡ Status.NotBuilt p → p ≡ part.Plan }
    ensures never_inside_query { result ≢ Status.Query query.OutOfMemory }
    ensures never_inside_param { result ≢ Status.Param param.OutOfMemory }
    ensures never_inside_shape { result ≢ Status.Shape shape.OutOfMemory }
    ensures never_inside_table { result ≢ Status.Table table.OutOfMemory }
    ensures never_inside_frame { (name : List ℕ) → result ≢ Status.Frame name frame.OutOfMemory }
{
    own_sessions_are_combined();
    carry_out_and_tell(rt, alloc, words, files, draw, out, gate)
}
